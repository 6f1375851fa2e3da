//! The pool and its policies at concrete values.
ghost use Rattle.std.specs.Prelude.{◌&&◌, nat_lt, false, None, slice_index_or};

use frame_pool::{Ask, DenyNth, FramePolicy, Pool, SnapQuota, Why};
use std::test::Fail;
use vm_base::{Asker, Frame, Want};

// Why a frame was refused, where it was.
fn refusal(answer: Result<Frame, Why>) -> Option<Why> {
    match answer {
        Ok(_) => None,
        Err(why) => Some(why),
    }
}

#[test]
fn the_first_policy_that_denies_is_named(rt: HostRuntime) -> Result<(), Fail> {
    let mut policies: Vec<Box<dyn FramePolicy + Send>> = Vec::new(rt.alloc());
    for nth in [3, 1, 2] {
        policies.push(Box::new(rt.alloc(), DenyNth::new(nth))?)?;
    }
    let mut pool = Pool::new(rt.alloc(), 8, policies)?;
    let answers = [
        Some(Why::Denied(1)),
        None,
        Some(Why::Denied(0)),
        Some(Why::Denied(0)),
        None,
    ];
    for answer in answers {
        assert_eq!(rt; refusal(pool.take(Asker::Parent, Want::Page)), answer);
    }
    assert_eq!(rt; pool.free(), 6);
    Ok(())
}

#[test]
fn a_quota_counts_the_asks_of_all_snapshots(rt: HostRuntime) -> Result<(), Fail> {
    let mut policies: Vec<Box<dyn FramePolicy + Send>> = Vec::new(rt.alloc());
    policies.push(Box::new(rt.alloc(), SnapQuota::new(2))?)?;
    let mut pool = Pool::new(rt.alloc(), 8, policies)?;
    let asks = [
        (Asker::Snapshot(1), None),
        (Asker::Parent, None),
        (Asker::Snapshot(2), None),
        (Asker::Snapshot(1), Some(Why::Denied(0))),
        (Asker::Parent, None),
    ];
    for (asker, answer) in asks {
        assert_eq!(rt; refusal(pool.take(asker, Want::Leaf)), answer);
    }
    Ok(())
}

#[test]
fn a_frame_that_comes_back_is_zeroed(rt: HostRuntime) -> Result<(), Fail> {
    let mut pool = Pool::new(rt.alloc(), 1, Vec::new(rt.alloc()))?;
    let Ok(mut frame) = pool.take(Asker::Snapshot(1), Want::Leaf) else {
        return Err(Fail::new("no frame"));
    };
    assert_eq!(rt; frame.bytes()[4095], 0);
    frame.bytes_mut()[4095] = 7;
    pool.give(frame);
    assert_eq!(rt; pool.free(), 1);
    let Ok(frame) = pool.take(Asker::Parent, Want::Top) else {
        return Err(Fail::new("no frame"));
    };
    assert_eq!(rt; frame.bytes()[4095], 0);
    Ok(())
}

// Grants where the ask is the next that it expects.
#[derive(Drop)]
struct Expects {
    asks: [Ask; 2],
    at: u64,
    denied: u64,
}

impl FramePolicy for Expects {
    ghost told = { λ p. record {
      reached = p.at;
      denials = p.denied;
      left = None;
      spares = false;
      done = false;
      answers = λ ask. nat_lt p.at 2
          && ⟦<Ask as PartialEq>⟧.eq (slice_index_or p.asks p.at ask) ask;
    } };

    fn grant(&mut self, ask: Ask) -> bool {
        let is_expected = self.at < 2 && self.asks[self.at as usize] == ask;
        self.at = self.at.saturating_add(1);
        if !is_expected {
            self.denied = self.denied.saturating_add(1);
        }
        is_expected
    }

    fn done(&self) -> bool {
        false
    }
}

#[test]
fn a_policy_sees_the_whole_request(rt: HostRuntime) -> Result<(), Fail> {
    let asks = [
        Ask {
            asker: Asker::Parent,
            want: Want::Middle,
            free: 2,
            place: 1,
        },
        Ask {
            asker: Asker::Snapshot(4),
            want: Want::Leaf,
            free: 1,
            place: 2,
        },
    ];
    let mut policies: Vec<Box<dyn FramePolicy + Send>> = Vec::new(rt.alloc());
    let expects = Expects {
        asks,
        at: 0,
        denied: 0,
    };
    policies.push(Box::new(rt.alloc(), expects)?)?;
    let mut pool = Pool::new(rt.alloc(), 2, policies)?;
    for ask in asks {
        assert_eq!(rt; refusal(pool.take(ask.asker, ask.want)), None);
    }
    assert_eq!(rt;
        refusal(pool.take(Asker::Parent, Want::Page)),
        Some(Why::Empty)
    );
    Ok(())
}
