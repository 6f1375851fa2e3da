//! Policies that are asked one after another.
ghost use Rattle.std.specs.Prelude.{◌≡◌, ◌<◌, ◌≤◌, ◌^◌, false, map, All, OnOk, IfErr, length};
ghost use Rattle.frame_pool.specs.Policies.{AllGrant, DeniesAt, NoneIsDone, standing};
ghost use Rattle.frame_pool.specs.Turns.{TakesTurn};

use crate::ask::Ask;
use crate::policy::FramePolicy;

// What one policy answered, and where in the list the policy behind it is now.
#[derive(Clone, Copy)]
pub(crate) struct PolicyAnswer {
    granted: bool,
    next: usize,
}

// Asks one policy, and drops it where it is done then.
pub(crate) fn ask_one<P: FramePolicy>(policies: &mut Vec<P>, at: usize, ask: Ask) -> PolicyAnswer
    requires inside { at < length policies.old.items }
    requires undone { All (λ policy. (P.told policy).done ≡ false) policies.old.items }
    ensures turn { TakesTurn P.told ask at result.granted result.next policies.old.items policies.new.items }
    ensures undone { All (λ policy. (P.told policy).done ≡ false) policies.new.items }
    ensures fewer { length policies.new.items ≤ length policies.old.items }
{
    let policy = &mut policies[at];
    let granted = policy.grant(ask);
    if policy.done() {
        policies.remove(at);
        PolicyAnswer { granted, next: at }
    } else {
        PolicyAnswer {
            granted,
            next: at + 1,
        }
    }
}

// Asks each policy in turn until one denies, and answers its place in the list as it was. Policies
// that are done after they were asked leave the list and are dropped.
pub(crate) fn ask_in_turn<P: FramePolicy>(policies: &mut Vec<P>, ask: Ask) -> Result<(), u32>
    requires few { length policies.old.items < 2 ^ 32 }
    requires undone { All (λ policy. (P.told policy).done ≡ false) policies.old.items }
    ensures granted { OnOk result
        (AllGrant ask (map P.told policies.old.items) (map P.told policies.new.items)) }
    ensures denied { IfErr result (λ place.
        DeniesAt ask place (map P.told policies.old.items) (map P.told policies.new.items)) }
    ensures undone { All (λ policy. (P.told policy).done ≡ false) policies.new.items }
    ensures fewer { length policies.new.items ≤ length policies.old.items }
{
    let mut place = 0;
    let mut at = 0;
    while at < policies.len() {
        let answer = ask_one(policies, at, ask);
        if !answer.granted {
            return Err(place);
        }
        place += 1;
        at = answer.next;
    }
    Ok(())
}

// Drops the policies that are done.
pub(crate) fn drop_done<P: FramePolicy>(policies: &mut Vec<P>)
    ensures standing { map P.told policies.new.items ≡ standing (map P.told policies.old.items) }
    ensures undone { All (λ policy. (P.told policy).done ≡ false) policies.new.items }
    ensures fewer { length policies.new.items ≤ length policies.old.items }
{
    policies.retain(|policy| !policy.done());
}

// Drops the policies that are done, and asks the others.
pub(crate) fn ask_standing<P: FramePolicy>(policies: &mut Vec<P>, ask: Ask) -> Result<(), u32>
    requires { length policies.old.items < 2 ^ 32 }
    ensures granted { OnOk result
        (AllGrant ask (standing (map P.told policies.old.items)) (map P.told policies.new.items)) }
    ensures denied { IfErr result (λ place. DeniesAt ask place
        (standing (map P.told policies.old.items)) (map P.told policies.new.items)) }
    ensures undone { NoneIsDone (map P.told policies.new.items) }
    ensures fewer { length policies.new.items ≤ length policies.old.items }
{
    drop_done(policies);
    ask_in_turn(policies, ask)
}
