//! What follows from the definitions, for whoever stands on them.

ghost use Rattle.std.specs.Prelude.{◌≡◌, ◌++◌, List, [], ℕ, Ok, Err};
ghost use Rattle.std.specs.List.{concat};
ghost use Rattle.ap_config.specs.declared.config.RadioConfig.{RadioConfig};
ghost use Rattle.events.specs.declared.line.Line.{Line};
ghost use Rattle.trace.specs.TraceText.{bssids_of, lines_of};
ghost use Rattle.trace.specs.Pieces.{ReaderView, HasRead, new_reader, answer_to, answer_to_all, after_piece};
ghost use Rattle.trace.specs.Pieces.{said_after};
ghost use Rattle.trace.specs.declared.fault.TraceFault.{TraceFault};

/// However a trace text is cut, what is answered to its pieces and to its end is what the text says, or its first
/// fault.
pub fn cut_anywhere()
    ensures { (config : RadioConfig) (pieces : List (List ℕ))
        → answer_to_all (new_reader (bssids_of config)) pieces ≡ lines_of config (concat pieces) }
{}

/// The same, piece by piece. A reader that has read a text, and takes a piece, has read the text with the piece behind
/// it. A fault that it answers to a piece is the first of the text that begins so, whatever comes later. At the end it
/// gives the last line.
pub fn piece_by_piece()
    ensures new { (config : RadioConfig) → HasRead config [] [] (new_reader (bssids_of config)) }
    ensures more { (config : RadioConfig) (text piece : List ℕ) (said more : List Line) (r : ReaderView)
        → HasRead config text said r → answer_to r piece ≡ Ok more
        → HasRead config (text ++ piece) (said ++ more) (after_piece r piece) }
    ensures fault { (config : RadioConfig) (text piece later : List ℕ) (said : List Line) (r : ReaderView)
        (fault : TraceFault) → HasRead config text said r → answer_to r piece ≡ Err fault
        → lines_of config (text ++ piece ++ later) ≡ Err fault }
    ensures end { (config : RadioConfig) (text : List ℕ) (said : List Line) (r : ReaderView)
        → HasRead config text said r → lines_of config text ≡ said_after said (answer_to_all r []) }
{}
