//! Laws of the definitions, each the contract of a function that does nothing.

ghost use Rattle.dercheck.specs.Frames.{EachTextHasAFraming, TextsHaveOneFraming};
ghost use Rattle.dercheck.specs.Laws.{LinesAreRight, RequestsAreRight, BadLinesAreBad, ValuesAreOk, OkLinesAreOk};
ghost use Rattle.dercheck.specs.Laws.{FaultsAreErr};

/// The lines of an input hold no line feed, and the input is the lines, each with a line feed after it. Only the last
/// line feed may be missing. The input has no other lines.
pub fn lines_are_right()
    ensures { LinesAreRight }
{}

/// The reply to a line depends on its form.
///
/// If the line is no request, the reply is `bad line`. The reply to a request is `ok` exactly if its octets are the
/// encoding of a value of the type, and else the error.
pub fn answers_are_right()
    ensures requests { RequestsAreRight }
    ensures bad { BadLinesAreBad }
    ensures ok { ValuesAreOk }
    ensures ok_lines { OkLinesAreOk }
    ensures err { FaultsAreErr }
{}

/// Each input has a framing, and no other.
pub fn one_framing()
    ensures some { EachTextHasAFraming }
    ensures one { TextsHaveOneFraming }
{}
