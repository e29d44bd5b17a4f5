ghost use Rattle.std.specs.Prelude.{◌≡◌, ◌++◌, ℕ, List, length, Option, None};
ghost use Rattle.cert_text.specs.Lines.{Line, line_bytes, IsGood, IsOfNoKind, HoldsOverRange};
ghost use Rattle.cert_text.specs.Streams.{PlainReader, Reads, new_reader, reader_at};
ghost use Rattle.cert_text.specs.declared.line.LineFault.{LineFault as Fault};

/// The bytes of a line are one good line, or hold a number over the range, or are of no kind: one of the
/// three.
pub fn one_spelling()
    ensures line { (l m : Line) → IsGood l → IsGood m → line_bytes l ≡ line_bytes m → l ≡ m }
    ensures in_range { (bytes : List ℕ) (l : Line) → bytes ≡ line_bytes l → IsGood l → HoldsOverRange bytes → ⊥ }
    ensures of_a_kind { (bytes : List ℕ) (l : Line) → bytes ≡ line_bytes l → IsGood l → IsOfNoKind bytes → ⊥ }
    ensures one_fault { (bytes : List ℕ) → HoldsOverRange bytes → IsOfNoKind bytes → ⊥ }
{}

/// What a reader finds does not depend on how the stream is cut: what a piece gives behind a stream without
/// a fault is, with the lines before it, what the stream and the piece give in one.
pub fn any_pieces()
    ensures { (limit : ℕ) (stream piece kept after : List ℕ) (good more : List Line) (fault : Option Fault)
        → Reads (new_reader limit) stream good None kept
        → Reads (reader_at limit (length stream) (length good) kept) piece more fault after
        → Reads (new_reader limit) (stream ++ piece) (good ++ more) fault after }
{}

/// What a piece gives a reader is one thing: the same lines, the same fault or none, and the same bytes kept.
pub fn one_answer()
    ensures { (r : PlainReader) (piece : List ℕ) (good other : List Line) (fault another : Option Fault) (kept after : List ℕ)
        → Reads r piece good fault kept → Reads r piece other another after
        → (good ≡ other) × (fault ≡ another) × (kept ≡ after) }
{}
