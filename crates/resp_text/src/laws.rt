//! Laws of the request grammar, for whatever bytes and requests.
ghost use Rattle.std.specs.Prelude.{◌≡◌, ◌++◌, ℕ, List};
ghost use Rattle.resp_text.specs.Grammar.{IsRequest, IsStream, IsUnfinished};
ghost use Rattle.resp_text.specs.Reading.{Reading, BreaksAt, WasFed, ReadAlike};
ghost use Rattle.resp_text.specs.declared.fault.ProtocolKind.{ProtocolKind};

/// Each request has one spelling.
pub fn one_spelling()
    ensures { (text other : List ℕ) (words : List (List ℕ)) →
        IsRequest text words → IsRequest other words → text ≡ other }
{}

/// Bytes have one reading: where they are whole items and an unfinished one, they are so in one
/// way, and the requests are the same.
pub fn one_reading()
    ensures { (whole other rest behind : List ℕ) (requests others : List (List (List ℕ))) →
        IsStream whole requests → IsStream other others → IsUnfinished rest → IsUnfinished behind →
        whole ++ rest ≡ other ++ behind → (requests ≡ others) × (whole ≡ other) × (rest ≡ behind) }
{}

/// No bytes behind a break make the bytes a stream.
pub fn break_is_final()
    ensures { (bytes more : List ℕ) (place : ℕ) (requests : List (List (List ℕ)))
        (kind : ProtocolKind) → BreaksAt bytes place kind →
        IsStream (bytes ++ more) requests → ⊥ }
{}

/// Bytes break at one place at most, and in one part of an item.
pub fn one_break()
    ensures { (bytes : List ℕ) (place other : ℕ) (kind second : ProtocolKind) →
        BreaksAt bytes place kind → BreaksAt bytes other second →
        (place ≡ other) × (kind ≡ second) }
{}

/// Two readers that were fed the same bytes have read the same, however the bytes were cut and
/// whenever requests were taken out: the requests, the rest, and the break with its place and kind.
pub fn one_reading_in_any_pieces()
    ensures { (reader other : Reading) (fed : List ℕ) (given others : List (List (List ℕ))) →
        WasFed reader fed given → WasFed other fed others → ReadAlike reader other given others }
{}
