//! What answers the lines of a session.
ghost use Rattle.std.specs.Prelude.{◌≡◌, IfOk, option_map};
ghost use Rattle.wy_explore.specs.Session.{Session};
ghost use Rattle.wy_view.specs.View.{Keeps, KeepsCounts, Told};
ghost use Rattle.wy_session.specs.Scene.{Said, Scene};

use std::alloc::Global;
use wy_view::ViewError;

/// A session over a view of a trace, which answers one line after another.
pub trait Respond {
    /// It can be asked.
    ghost ready: { Self → Type 0 };

    /// What its view tells.
    ghost tells: { Self → Told };

    /// It is over this trace, and stands there. Where its view tells no records it is over none.
    ghost stands: { Self → Scene → Session → Type 0 };

    /// The text of the reply to a line, and None where the session is over.
    fn reply(&mut self, alloc: Global, line: &[u8]) -> Result<Option<Vec<u8>>, ViewError>
        requires { ready self.old }
        ensures ready { ready self.new }
        ensures said { (x : Scene) (s : Session) → stands self.old x s → IfOk result (λ reply.
            (t : Session) × Said x s line.now t (option_map (λ text. text.items) reply)
            × stands self.new x t) }
        ensures keeps { Keeps (tells self.old) (tells self.new) }
        ensures answers { KeepsCounts result (tells self.old) (tells self.new) };
}
