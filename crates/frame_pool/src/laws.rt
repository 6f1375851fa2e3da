//! Where the frames of a pool are.
ghost use Rattle.std.specs.Prelude.{◌≡◌, ◌+◌, ◌<◌, [], ◌∷◌, ◌++◌, ℕ, List, length};
ghost use Rattle.std.specs.List.{range_with_len};
ghost use Rattle.vm_base.specs.declared.frame_request.Asker.{Asker};
ghost use Rattle.vm_base.specs.declared.frame_request.Want.{Want};
ghost use Rattle.vm_base.specs.Frames.{FrameView};
ghost use Rattle.frame_pool.specs.Policies.{PolicyView};
ghost use Rattle.frame_pool.specs.Frames.{PoolView, TakesOut, KeepsFrames, AreAtOnePlace};

/// Each frame that was made is in the pool or with its user, and at one place alone: at opening all
/// are in the pool, a frame that is taken goes out, a refused request moves none, and a frame that
/// is out, whichever it is, comes back.
pub fn each_frame_is_at_one_place()
    ensures opened { (made asks : ℕ) (policies : List PolicyView) →
        AreAtOnePlace (record { made = made; free = range_with_len 0 made; asks = asks; policies = policies }) [] }
    ensures taken { (asker : Asker) (want : Want) (frame : FrameView) (old new : PoolView) (out : List ℕ) → TakesOut asker want frame old new →
        AreAtOnePlace old out → AreAtOnePlace new (frame.number ∷ out) }
    ensures refused { (old new : PoolView) (out : List ℕ) → KeepsFrames old new → AreAtOnePlace old out → AreAtOnePlace new out }
    ensures given { (number : ℕ) (pool : PoolView) (before behind : List ℕ) → AreAtOnePlace pool (before ++ number ∷ behind) →
        AreAtOnePlace (record pool { free = pool.free ++ number ∷ [] }) (before ++ behind) }

    // What `give` needs: a frame that is out has room in the pool.
    ensures room { (number : ℕ) (pool : PoolView) (before behind : List ℕ) → AreAtOnePlace pool (before ++ number ∷ behind) → length pool.free < pool.made }

    // The frames in the pool are those made less those that are out.
    ensures count { (pool : PoolView) (out : List ℕ) → AreAtOnePlace pool out → length pool.free + length out ≡ pool.made }
{}
