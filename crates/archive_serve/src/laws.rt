//! Laws of a run of connections: each contract is a law over the definitions of `specs/` alone, and the call does nothing.
ghost use Rattle.archive_serve.specs.Runs.{Each503HasItsCause, EachGetsItsReply, WholeRepliesLeaveStoreOpen};

use archive_listen::Listener;
use archive_port::ArchiveStore;

/// Connections whose replies went out whole, and none of which was 503, leave the store ready for the next.
pub fn whole_replies_leave_the_store_ready<S: ArchiveStore, L: Listener>()
    ensures { WholeRepliesLeaveStoreOpen S.ArchiveState L.accepts L.closes }
{}

/// Each peer is sent its own reply: what was read of it, and what was sent to it, stand together in what went over the connections that
/// the listener took back.
pub fn each_peer_gets_its_reply<S: ArchiveStore, L: Listener>()
    ensures { EachGetsItsReply S.ArchiveState L.over L.accepts L.closes }
{}

/// Each 503 and each mbox that broke off has its cause: while it was answered memory was refused or the disk failed; or the disk had failed
/// before and closed the store; or what was asked for cannot be read.
pub fn each_503_has_its_cause<S: ArchiveStore, L: Listener>()
    ensures { Each503HasItsCause S.ArchiveState L.over L.accepts L.closes }
{}
