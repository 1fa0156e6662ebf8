//! The texts of the help: what it says of each command, and the line of each argument.

/// What the help says of a command: its line in the list of commands, and the end of its own help.
#[derive(Clone, Copy)]
pub(crate) struct Help {
    /// The line.
    pub about: &'static str,
    /// The end.
    pub end: &'static str,
}

pub(crate) const ARCHIVE: Help = Help {
    about: "Archives mailing lists; a policy decides who may read which message",
    end: "\
Without a command it runs `sift` without options, and every message passes.

FILE is the database. A command with --db creates it if it is missing or empty.
Days are yyyy-mm-dd, from 1900-01-01 to 9998-12-31. A command reads its inputs
in this order: the policy, the clock, FILE, the mbox.

Status: 0 done; 1 refused, with one line on standard error: `archive: `, a
number and a name; 2 usage error, and nothing was changed. Every command may be
refused with F2 (standard output failed) or F5 (no memory for the arguments).

Example:
  archive list-add --db archive.db soc
  archive import --db archive.db soc soc.mbox
  archive serve --db archive.db --policy policy.toml --port 8080 --count 1000",
};

pub(crate) const SIFT: Help = Help {
    about: "Filter an mbox from standard input to standard output, by age or by a policy",
    end: "\
The policy is read first; then the clock, if an age or a policy is given and no
day; then standard input, to its end.

Status: 0 done; 1 refused, with one line on standard error; 2 usage error.
Refusals: F1 FILE cannot be read, P1 to P8 it is not a policy, F3 the clock
failed, M1 the input is not an mbox, M2 reading it failed, M3 or F5 no memory,
F2 standard output failed.

Example: archive sift --day 2003-03-20 --min-age 10 --policy policy.toml < list.mbox",
};

pub(crate) const LIST_ADD: Help = Help {
    about: "Add a list",
    end: "\
Opens FILE, and creates it if it is missing or empty.

Prints `added`.

Status: 0 done; 1 refused, with one line on standard error; 2 usage error.
Refusals: E1 NAME is not a valid name, E3 the list exists, E14 no memory,
E15 the database.

Example: archive list-add --db archive.db soc",
};

pub(crate) const MERGE: Help = Help {
    about: "Set whether a list's threads are merged by subject",
    end: "\
Opens FILE, and creates it if it is missing or empty.

Prints `merge on` or `merge off`. With `yes`, which every list has at first,
threads with the same subject become one thread, even if no message of one
refers to the other (step 5 of RFC 5256, THREAD=REFERENCES). With `no`, only
References and In-Reply-To fields join messages. No message changes, and you can
set it again at any time.

Status: 0 done; 1 refused, with one line on standard error; 2 usage error.
Refusals: E4 no such list, E14 no memory, E15 the database.

Example: archive merge --db archive.db minutes no",
};

pub(crate) const PERSON_ADD: Help = Help {
    about: "Add a person, with the token that identifies them in requests",
    end: "\
Opens FILE, and creates it if it is missing or empty.

Prints `added`. The database stores the token in plain text, so only its owner
should be able to read FILE.

Status: 0 done; 1 refused, with one line on standard error; 2 usage error.
Refusals: E1 NAME is not a valid name, E2 TOKEN is not a valid token,
E5 the person exists, E7 another person has the token, E14 no memory,
E15 the database.

Example: archive person-add --db archive.db anna 5fW2xkQ0aTz7uYp1",
};

pub(crate) const PERSON_ADDRESS: Help = Help {
    about: "Set the address that marks messages as a person's own",
    end: "\
Opens FILE, and creates it if it is missing or empty.

Prints `address set`. An earlier address is replaced. A message is the person's
own if its author is this address, in upper or lower case; the key `own` of the
policy decides what that lets them read. Nothing checks that the address is
theirs: the owner of FILE has to know.

Status: 0 done; 1 refused, with one line on standard error; 2 usage error.
Refusals: E6 no such person, E2 ADDRESS is not a valid address, E14 no memory,
E15 the database.

Example: archive person-address --db archive.db anna anna@example.org",
};

pub(crate) const GRANT: Help = Help {
    about: "Make a person a member, subscriber or moderator of a list",
    end: "\
Opens FILE, and creates it if it is missing or empty.

Prints `granted`. A grant of the same kind is replaced. It holds from its first
day to its last, both included.

Status: 0 done; 1 refused, with one line on standard error; 2 usage error.
Refusals: E6 no such person, E4 no such list, E11 UNTIL is before FROM,
E14 no memory, E15 the database.

Example: archive grant --db archive.db anna soc member 2003-01-01 2003-12-31",
};

pub(crate) const REVOKE: Help = Help {
    about: "Remove a grant",
    end: "\
Opens FILE, and creates it if it is missing or empty.

Prints `revoked`, or `no grant` if there was none.

Status: 0 done; 1 refused, with one line on standard error; 2 usage error.
Refusals: E6 no such person, E4 no such list, E14 no memory, E15 the database.

Example: archive revoke --db archive.db anna soc member",
};

pub(crate) const IMPORT: Help = Help {
    about: "Import the messages of an mbox into a list",
    end: "\
Opens FILE first, and creates it if it is missing or empty; then opens MBOX and
reads it piece by piece.

Prints `new N known N too-large N`: how many messages were added, how many the
list already had (these stay unchanged), and how many have more than 16777216
bytes and were skipped.

Status: 0 done; 1 refused, with one line on standard error; 2 usage error.
Refusals: F1 MBOX cannot be opened, E4 no such list, M1 MBOX is not an mbox,
M2 reading it failed, M3, E14 or F5 no memory, E12 the list is full, E15 the
database. If an import stops, ` after N` says how many messages were done. They
stay, and the same import again adds the rest.

Example: archive import --db archive.db soc soc.mbox",
};

pub(crate) const WITHDRAW: Help = Help {
    about: "Withdraw a message",
    end: "\
Opens FILE, and creates it if it is missing or empty.

Prints `withdrawn`. The policy decides who may still read the message.

Status: 0 done; 1 refused, with one line on standard error; 2 usage error.
Refusals: E8 KEY is not a key or no such message, E4 no such list,
E9 it is already withdrawn, E14 no memory, E15 the database.

Example: archive withdraw --db archive.db soc KEY author",
};

pub(crate) const RESTORE: Help = Help {
    about: "Undo the withdrawal of a message",
    end: "\
Opens FILE, and creates it if it is missing or empty.

Prints `restored`.

Status: 0 done; 1 refused, with one line on standard error; 2 usage error.
Refusals: E8 KEY is not a key or no such message, E4 no such list,
E10 it is not withdrawn, E14 no memory, E15 the database.

Example: archive restore --db archive.db soc KEY",
};

pub(crate) const EMBARGO: Help = Help {
    about: "Embargo a message until a day",
    end: "\
Opens FILE, and creates it if it is missing or empty.

Prints `embargoed`. An earlier embargo is replaced. The policy decides who may
still read the message.

Status: 0 done; 1 refused, with one line on standard error; 2 usage error.
Refusals: E8 KEY is not a key or no such message, E4 no such list,
E14 no memory, E15 the database.

Example: archive embargo --db archive.db soc KEY 2003-06-01",
};

pub(crate) const LIFT: Help = Help {
    about: "Remove the embargo of a message",
    end: "\
Opens FILE, and creates it if it is missing or empty.

Prints `lifted`, or `no embargo` if there was none.

Status: 0 done; 1 refused, with one line on standard error; 2 usage error.
Refusals: E8 KEY is not a key or no such message, E4 no such list,
E14 no memory, E15 the database.

Example: archive lift --db archive.db soc KEY",
};

pub(crate) const GET: Help = Help {
    about: "Write a message, if the policy lets the reader read it",
    end: "\
Reads the policy first; then the clock, if no day is given; then opens FILE, and
creates it if it is missing or empty.

Writes the text of the message as it was imported. If the policy denies it, the
line on standard error is `archive: denied by RULE`.

Status: 0 done; 1 refused, with one line on standard error; 2 usage error.
Refusals: F1 POLICY cannot be read, P1 to P8 it is not a policy, F3 the clock
failed, E14, G5 or F5 no memory, E15 or G4 the database, E8 KEY is not a key or
no such message, G1 no such list, G2 no such person, F2 standard output failed.

Example: archive get --db archive.db --policy policy.toml --person anna soc KEY",
};

pub(crate) const EXPORT: Help = Help {
    about: "Export the messages of a list that the reader may read, as an mbox",
    end: "\
Reads the policy first; then the clock, if no day is given; then opens FILE, and
creates it if it is missing or empty.

Writes an mbox, in the order in which the messages were added.

Status: 0 done; 1 refused, with one line on standard error; 2 usage error.
Refusals: F1 POLICY cannot be read, P1 to P8 it is not a policy, F3 the clock
failed, E14, G5 or F5 no memory, E15 or G4 the database, G1 no such list,
G2 no such person, G6 standard output failed.

Example: archive export --db archive.db --policy policy.toml soc > soc.mbox",
};

pub(crate) const CHECK: Help = Help {
    about: "Check every message in the database",
    end: "\
Opens FILE, and creates it if it is missing or empty.

Checks that the sender, arrival and text of every message make a complete
message, that its key is the digest of its text, and that its sent date, month
and author are those of its text. Prints `ok` if all are in order. It repairs
nothing.

Status: 0 done; 1 refused, with one line on standard error; 2 usage error.
Refusals: E16 a message is damaged, E14 no memory, E15 the database,
F2 standard output failed. The line of E16 names the first damaged message by
its list and its key, with `?` for each byte that is not visible; lists come by
name, and their messages in mailbox order.

Example: archive check --db archive.db",
};

pub(crate) const SERVE: Help = Help {
    about: "Serve the archive over HTTP, on this machine only",
    end: "\
Reads the policy first; then the clock, if no day is given; then opens FILE, and
creates it if it is missing or empty. FILE stays locked, and the policy and the
day stay the same, until the server exits.

Prints `listening on 127.0.0.1:PORT`, serves COUNT connections one after the
other, and exits. Each connection that fails is reported on one line of standard
error (S1 reading it failed, S2 writing to it failed, S3 its mbox broke off).

Status: 0 done; 1 refused, with one line on standard error; 2 usage error.
Refusals: F1 POLICY cannot be read or the system gave no random bytes,
P1 to P8 it is not a policy, F3 the clock failed, E14 or F5 no memory, E15 the
database, F2 standard output failed, F4 the port is taken or no connection can
be accepted.

Example: archive serve --db archive.db --policy policy.toml --port 8080 --count 1000",
};

pub(crate) const DAY: &str =
    "The reading day, yyyy-mm-dd [default: today in UTC, if an age or a policy is given]";

pub(crate) const MIN_AGE: &str =
    "Only messages that arrived at least this many days before the reading day";

pub(crate) const POLICY: &str = "The file with the policy [default: everybody may read everything]";

pub(crate) const SIFT_LIST: &str =
    "The list to which the messages belong, for the policy [default: inbox]";

pub(crate) const STANDING: &str =
    "The reader's standing: public, member, subscriber or moderator [default: public]";

pub(crate) const RULES: &str = "The file with the policy";

pub(crate) const TODAY: &str = "The reading day, yyyy-mm-dd [default: today in UTC]";

pub(crate) const ASKING: &str = "The name of the person to read as [default: the public]";

pub(crate) const PORT: &str = "The port, 0 to 65535; with 0 the system chooses a free one";

pub(crate) const COUNT: &str = "How many connections to serve, 0 to 1000000";

pub(crate) const DATABASE: &str = "The file of the database";

pub(crate) const NAME: &str = "A name: 1 to 40 of a to z, 0 to 9 and -, beginning with a letter";

pub(crate) const TOKEN: &str =
    "A token (RFC 6750): 16 to 64 bytes, letters, digits or -._~+/, then any =";

pub(crate) const PERSON: &str = "The person's name";

pub(crate) const ADDRESS: &str = "An address: 1 to 254 bytes, each visible ASCII";

pub(crate) const LIST: &str = "The list's name";

pub(crate) const MERGED: &str = "yes or no";

pub(crate) const MBOX: &str = "The file with the messages, an mbox (RFC 4155)";

pub(crate) const KIND: &str = "member, subscriber or moderator";

pub(crate) const FROM: &str = "The first day, yyyy-mm-dd";

pub(crate) const GRANT_UNTIL: &str = "The last day, yyyy-mm-dd";

pub(crate) const KEY: &str =
    "The message's key: the SHA-256 of its text, 64 hexadecimal digits in lower case";

pub(crate) const BY: &str = "author or board";

pub(crate) const EMBARGO_UNTIL: &str = "The first day after the embargo, yyyy-mm-dd";
