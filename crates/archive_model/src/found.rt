//! What decides a command.

/// What an archive holds of the names in a command: that alone decides it (`guarded_replies_of`). What a command does not name is not there.
#[derive(Clone, Copy)]
pub struct CommandFacts {
    /// The list is there.
    pub list: bool,
    /// The person is there.
    pub person: bool,
    /// Somebody has the token.
    pub token: bool,
    /// The person has a grant of this kind on the list.
    pub grant: bool,
    /// The person has an address.
    pub address: bool,
    /// The list holds the message.
    pub message: bool,
    /// The message is withdrawn.
    pub withdrawn: bool,
    /// The message has an embargo.
    pub embargo: bool,
    /// The list holds as many messages as a list may.
    pub full: bool,
}

/// Nothing is there.
pub const NOTHING: CommandFacts = CommandFacts {
    list: false,
    person: false,
    token: false,
    grant: false,
    address: false,
    message: false,
    withdrawn: false,
    embargo: false,
    full: false,
};
