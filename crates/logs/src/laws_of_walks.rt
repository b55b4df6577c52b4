//! What it means that a text is walked through.
ghost use Rattle.std.specs.Prelude.{◌≡◌, [], ℕ, List};
ghost use Rattle.logs.specs.Logs.{Guard};
ghost use Rattle.logs.specs.Serial.{IsSerialLog};
ghost use Rattle.logs.specs.Said.{SaidData};
ghost use Rattle.logs.specs.Spelling.{IsLog, log_lines_of};
ghost use Rattle.logs.specs.Walks.{Stand, Stands, front, walked};

/// A text that is walked through to its end, which is the end of a line, with no thread inside a block, is the text of a log that is
/// serial, whatever is guessed of the guards.
pub fn serial_texts_have_serial_logs()
    ensures { (guard : ℕ → Guard) (text : List ℕ) (s : Stand) → walked guard front text ≡ Stands s → s.row ≡ [] → ((t : ℕ) → s.known.depth t ≡ 0) →
        (said : List SaidData) × IsLog text said × IsSerialLog (log_lines_of said) }
{}
