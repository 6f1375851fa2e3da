//! Laws of the definitions, for whatever requests.
ghost use Rattle.trace_core.specs.Answering.{NoRequestHasLed, DealsLeadOn};
ghost use Rattle.trace_core.specs.RunMeaning.{IsToldByRefused, IsOneByRefused};

/// What a supply answers is what the requests of a run may be answered, run after run: each request
/// that is forced to be refused is, no other where no policy was handed in, at most as many others
/// as the policies had denials left at the start, and none of the parent where they spare it.
pub fn a_supply_answers_as_it_may()
    ensures begins { NoRequestHasLed }
    ensures goes_on { DealsLeadOn }
{}

/// What a run answers and leaves is told by the list of its refused requests alone: with just these
/// refused, each event ends as it did; and for one list there is one run of the events.
pub fn a_run_is_told_by_its_refused_requests()
    ensures told { IsToldByRefused }
    ensures one { IsOneByRefused }
{}
