//! Worked examples of heads, as the contract of a function with an empty body.

ghost use Rattle.std.specs.Prelude.{◌≡◌, [], ◌∷◌, codes, false};
ghost use Rattle.std.specs.List.{list_all};
ghost use Rattle.satip_tunnel_laws.specs.Pieces.{IsLine, is_plain, lined, told_size};

/// Shows two lines with their ends, the number of bytes after a head that says it and after one
/// that doesn't, and texts that are no line.
pub fn worked_rows()
    ensures lines { lined (codes "A" ∷ codes "B" ∷ []) ≡ codes "A\r\nB\r\n" }
    ensures told { told_size (codes "CSeq: 1" ∷ codes "Content-Length: 12" ∷ []) ≡ 12 }
    ensures untold { told_size (codes "CSeq: 1" ∷ codes "X-Content-Length: 12" ∷ []) ≡ 0 }
    ensures line { IsLine (codes "CSeq: 1") }
    ensures empty { ¬ (IsLine []) }
    ensures feed { list_all is_plain (codes "A\nB") ≡ false }
{}
