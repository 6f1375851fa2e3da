//! Laws of scripts.
ghost use Rattle.std.specs.Prelude.{◌≡◌, ◌⊎◌, ℕ, List};
ghost use Rattle.trace_events.specs.declared.event.Event.{Event};
ghost use Rattle.trace_events.specs.EventBounds.{IsWithinBounds};
ghost use Rattle.trace_text.specs.ScriptGrammar.{ScriptParts, IsScript, IsFaultAt, event_line};

/// No spelling of one script is a spelling of another.
pub fn one_script()
    ensures { (text : List ℕ) (one other : ScriptParts) → IsScript text one → IsScript text other → one ≡ other }
{}

/// No line of one event is the line of another.
pub fn one_line()
    ensures { (one other : Event) → IsWithinBounds one → IsWithinBounds other
        → event_line one ≡ event_line other → one ≡ other }
{}

/// Each text is a script or has a first line at fault, and that is one line; no text is both.
pub fn script_or_fault()
    ensures either { (text : List ℕ)
        → ((script : ScriptParts) × IsScript text script) ⊎ ((line : ℕ) × IsFaultAt text line) }
    ensures one_fault { (text : List ℕ) (line other : ℕ)
        → IsFaultAt text line → IsFaultAt text other → line ≡ other }
    ensures not_both { (text : List ℕ) (script : ScriptParts) (line : ℕ)
        → IsScript text script → IsFaultAt text line → ⊥ }
{}
