//! Laws of a run of connections: each contract is a law over the definitions of `specs/` alone, and the call does nothing.
ghost use Rattle.archive_listen.specs.Given.{EachAcceptedIsAnswered};
ghost use Rattle.archive_listen.specs.Serving.{service_answer_law};

use crate::connections::Service;

/// Each connection that the system gives a `Loopback` is answered and taken back, in any run of any service.
pub fn each_accepted_connection_is_answered<St, V: Service<St>>()
    ensures { EachAcceptedIsAnswered (service_answer_law V.answers) }
{}
