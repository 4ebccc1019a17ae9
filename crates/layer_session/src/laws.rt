//! What follows from the definition of a session alone.
ghost use Rattle.std.specs.Prelude.{◌≡◌, ◌<◌, ◌↔◌, List, Result, ℕ, length};
ghost use Rattle.geometry.specs.Facet.{Facet};
ghost use Rattle.binary_stl.specs.Binary.{HasTextForCount};
ghost use Rattle.binary_stl.specs.declared.limits.TheConstants.{TEXT_LIMIT};
ghost use Rattle.layer_session.specs.Session.{Input, IsAnswer, IsReadAs, Session, of_file, of_text};
ghost use Rattle.layer_session.specs.declared.session_fault.SessionFault.{SessionFault};
ghost use Rattle.layer_session.specs.declared.setup.Setup.{Setup};

use binary_stl::no_text;

/// A setup and an input, which is a file, a text or arrays, have exactly one answer if memory suffices: a session, or a fault.
pub fn one_answer()
    ensures exists { (setup : Setup) (input : Input) → (answer : Result Session SessionFault) × IsAnswer setup input answer }
    ensures one { (setup : Setup) (input : Input) (answer other : Result Session SessionFault)
        → IsAnswer setup input answer → IsAnswer setup input other → answer ≡ other }
{}

/// Two inputs that are read as the same facets have the same answer with one setup: the same session or the same fault. A binary
/// STL, a text and arrays can be such inputs.
pub fn same_answer()
    ensures { (setup : Setup) (input another : Input) (facets : List Facet) (answer other : Result Session SessionFault)
        → IsReadAs setup input facets → IsReadAs setup another facets
        → IsAnswer setup input answer → IsAnswer setup another other → answer ≡ other }
{}

/// The file of a text has the answer of the text, if the text is shorter than [`TEXT_LIMIT`](binary_stl::TEXT_LIMIT) and none of
/// its bytes 80 to 83 is a control character other than white space.
pub fn text_as_file()
    ensures { (setup : Setup) (bytes : List ℕ) (answer : Result Session SessionFault)
        → HasTextForCount bytes → length bytes < TEXT_LIMIT
        → IsAnswer setup (of_file bytes) answer ↔ IsAnswer setup (of_text bytes) answer }
{
    no_text();
}
