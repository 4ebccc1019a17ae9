//! Opening a text that arrives in chunks.
ghost use Rattle.std.specs.Prelude.{◌≡◌, ◌++◌, [], Err, IfErr, IfOk, List, ℕ};
ghost use Rattle.layer_session.specs.SessionReader.{IsFed};
ghost use Rattle.layer_session.specs.Session.{IsOpenFault, IsSessionOf, Session as SessionModel, of_text};
ghost use Rattle.layer_session.specs.Setup.{HasSteps};
ghost use Rattle.layer_session.specs.declared.session_fault.SessionFault.TheVariants.{Memory, Step};
ghost use Rattle.layer_session.specs.declared.setup.Setup.{Setup};

use crate::session::Session;
use crate::session_fault::SessionFault;
use crate::setup::Setup;
use geometry::FACET_LIMIT;
use std::alloc::Allocator;
use std::marker::Model;
use stl_text::TextReader;

/// Opens an ASCII STL text that arrives in chunks, cut anywhere. It keeps the facets and no more of the text than the
/// front of a word that is not whole yet.
#[derive(Drop)]
pub struct SessionReader<A: Allocator> {
    alloc: A,
    setup: Setup,
    reader: TextReader<A>,
}

impl<A: Allocator> Model for SessionReader<A> {
    ghost use Rattle.std.specs.Prelude.{List, ℕ};
    ghost use Rattle.layer_session.specs.SessionReader.{IsFed, SessionReader};

    ghost Value = { SessionReader };

    ghost view = { λ r. record { setup = r.setup; reader = r.reader } };

    ghost invariant = { λ r. (fed : List ℕ) × IsFed r.setup (record { setup = r.setup; reader = r.reader }) fed };
}

impl<A: Allocator + Copy + Send + Sync> SessionReader<A> {
    /// A reader that has read nothing yet.
    pub fn new(alloc: A, setup: &Setup) -> SessionReader<A>
        ensures { IsFed setup.now result [] }
    {
        SessionReader {
            alloc,
            setup: *setup,
            reader: TextReader::new(alloc, FACET_LIMIT, setup.unit),
        }
    }

    /// Reads the next chunk of the text. The place of the cut between two chunks does not matter.
    pub fn feed(&mut self, chunk: &[u8])
        ensures { (setup : Setup) (fed : List ℕ) → IsFed setup self.old fed → IsFed setup self.new (fed ++ chunk.now) }
    {
        self.reader.feed(chunk);
    }

    /// The session of the text that was fed, as of [`Session::open`].
    ///
    /// # Errors
    /// Those of [`Session::open`], in the same order. `Memory` comes only if an allocation failed, at this call or while the
    /// text was read, or past `usize::MAX` bytes.
    pub fn finish(self) -> Result<Session<A>, SessionFault>
        ensures found { (setup : Setup) (fed : List ℕ) → IsFed setup self fed → IfOk result (IsSessionOf setup (of_text fed)) }
        ensures fault { (setup : Setup) (fed : List ℕ) → IsFed setup self fed → IfErr result (IsOpenFault setup (of_text fed)) }
        ensures step { (setup : Setup) (fed : List ℕ) → IsFed setup self fed → (HasSteps setup → ⊥) → result ≡ Err Step }
        ensures only { (setup : Setup) (fed : List ℕ) → IsFed setup self fed → (session : SessionModel)
            → IsSessionOf setup (of_text fed) session → IfErr result (λ fault. fault ≡ Memory) }
    {
        let SessionReader {
            alloc,
            setup,
            reader,
        } = self;
        setup.check()?;
        let facets = reader.finish()?;
        Session::of_facets(alloc, facets, &setup)
    }
}
