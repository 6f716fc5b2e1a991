//! Laws of the log, each the contract of a function that does nothing.
ghost use Rattle.std.specs.Prelude.{ℕ, ◌≡◌, List};
ghost use Rattle.std.specs.List.{All};
ghost use Rattle.request_log.specs.Lines.{IsLogOf, IsOfRows, log_of};
ghost use Rattle.request_log.specs.declared.format.Part.{Part as AnyPart};
ghost use Rattle.lb_model.specs.declared.served.Served.{Served as AnyServed};

/// Where a format asks for nothing that a row doesn't tell, the log is that of the rows alone.
pub fn logs_are_of_their_rows()
    ensures { (format : List AnyPart) (addr : List ℕ) (rows : List AnyServed) (text : List ℕ)
        → All IsOfRows format → IsLogOf format addr rows text → text ≡ log_of format rows }
{}
