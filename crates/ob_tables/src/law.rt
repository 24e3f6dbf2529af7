ghost use Rattle.std.specs.Prelude.{◌≡◌, ◌++◌, ℕ, List, Ok, length};
ghost use Rattle.ob_codec.specs.Laws.{Takes};
ghost use Rattle.ob_codec.specs.Spelling.{AreBytes};
ghost use Rattle.ob_tables.specs.Spelling.{TablesFit, tables_at, tables_text};
ghost use Rattle.ob_tables.specs.Tables.{HandleTables};

/// Tables that were written are read again, whatever stands behind them, and what is read was written so.
pub fn law_of_spelled_tables()
    ensures again { (t : HandleTables) (rest : List ℕ) → TablesFit t
        → tables_at t.process_limit t.handle_limit (length t.tables) (tables_text t.tables ++ rest) ≡ Ok (t, rest) }
    ensures takes { (p h given : ℕ) (bytes : List ℕ) (t : HandleTables) (rest : List ℕ) → AreBytes bytes
        → tables_at p h given bytes ≡ Ok (t, rest) → Takes bytes (tables_text t.tables) rest × TablesFit t }
{}
