//! The command line, as `clap` reads it.
ghost use Rattle.std.specs.Prelude.{IfOk};
ghost use Rattle.clap.specs.Words.{App, Rule, with_rule};
ghost use Rattle.archive_usage.specs.Program.{ArgParsesByRule, CommandParsesAsApp, valued_rule, option_rule, required_rule, empty_app};
ghost use Rattle.archive_usage.specs.Program.{with_option, with_required_option, with_positional, with_command, with_version_flag};
ghost use Rattle.archive_usage.specs.Program.{database_app, message_app, grant_target_app, sift_dates_app};
ghost use Rattle.archive_usage.specs.Program.{sift_app, list_add_app, merge_app, person_add_app};
ghost use Rattle.archive_usage.specs.Program.{person_address_app, grant_app, revoke_app, import_app, withdraw_app, restore_app, embargo_app, lift_app};
ghost use Rattle.archive_usage.specs.Program.{policy_app, reader_query_app, get_app, export_app, check_app, serve_app};
ghost use Rattle.archive_usage.specs.Program.{bare_app, app_with_list_commands, app_with_person_commands, app_with_message_commands, archive_app, app_named};

use crate::help::{self, Help};
use clap::{Arg, Command};
use std::alloc::{AllocError, Global};

const VERSION: &str = "0.3.0";

/// An argument with one value, with its line in the help.
fn valued<'a>(alloc: Global, name: &'a str, value: &'a str, help: &'a str) -> Arg<'a>
    ensures { ArgParsesByRule (valued_rule name.entry.now) result }
{
    Arg::new(alloc, name).value_name(value).help(help)
}

/// An option `--NAME VALUE`.
fn option<'a>(alloc: Global, name: &'a str, value: &'a str, help: &'a str) -> Arg<'a>
    ensures { ArgParsesByRule (option_rule name.entry.now) result }
{
    valued(alloc, name, value, help).long(name)
}

/// The argument, which has to be given.
fn required<'a>(arg: Arg<'a>) -> Arg<'a>
    ensures { (rule : Rule) → ArgParsesByRule rule arg.entry → ArgParsesByRule (required_rule rule) result }
{
    arg.required(true)
}

/// The command with an argument more.
fn with_arg<'a>(command: Command<'a>, arg: Arg<'a>) -> Result<Command<'a>, AllocError>
    ensures { (app : App) → (rule : Rule) → CommandParsesAsApp app command.entry → ArgParsesByRule rule arg.entry
        → IfOk result (CommandParsesAsApp (with_rule app rule)) }
{
    let more = command.arg(arg)?;
    Ok(more)
}

/// The command with an option more.
fn with_option<'a>(
    alloc: Global,
    command: Command<'a>,
    name: &'a str,
    value: &'a str,
    help: &'a str,
) -> Result<Command<'a>, AllocError>
    ensures { (app : App) → CommandParsesAsApp app command.entry → IfOk result (CommandParsesAsApp (with_option app name.entry.now)) }
{
    with_arg(command, option(alloc, name, value, help))
}

/// The command with an option more that has to be given.
fn with_needed<'a>(
    alloc: Global,
    command: Command<'a>,
    name: &'a str,
    value: &'a str,
    help: &'a str,
) -> Result<Command<'a>, AllocError>
    ensures { (app : App) → CommandParsesAsApp app command.entry → IfOk result (CommandParsesAsApp (with_required_option app name.entry.now)) }
{
    with_arg(command, required(option(alloc, name, value, help)))
}

/// The command with a word more.
fn with_word<'a>(
    alloc: Global,
    command: Command<'a>,
    name: &'a str,
    value: &'a str,
    help: &'a str,
) -> Result<Command<'a>, AllocError>
    ensures { (app : App) → CommandParsesAsApp app command.entry → IfOk result (CommandParsesAsApp (with_positional app name.entry.now)) }
{
    with_arg(command, required(valued(alloc, name, value, help)))
}

/// The command with its line in the help and what stands at the end of its help, which change nothing in how words are
/// read.
fn described<'a>(command: Command<'a>, help: Help) -> Command<'a>
    ensures { (app : App) → CommandParsesAsApp app command.entry → CommandParsesAsApp app result }
{
    command.about(help.about).after_help(help.end)
}

/// A command with no argument yet.
fn new_command<'a>(alloc: Global, name: &'a str, help: Help) -> Command<'a>
    ensures { CommandParsesAsApp (empty_app name.entry.now) result }
{
    described(Command::new(alloc, name), help)
}

/// A command over the tables of a database.
fn table_command<'a>(alloc: Global, name: &'a str, help: Help) -> Result<Command<'a>, AllocError>
    ensures { IfOk result (CommandParsesAsApp (database_app name.entry.now)) }
{
    let command = new_command(alloc, name, help);
    with_needed(alloc, command, "db", "FILE", help::DATABASE)
}

/// A command on a message.
fn message_command<'a>(alloc: Global, name: &'a str, help: Help) -> Result<Command<'a>, AllocError>
    ensures { IfOk result (CommandParsesAsApp (message_app name.entry.now)) }
{
    let command = table_command(alloc, name, help)?;
    let listed = with_word(alloc, command, "list", "LIST", help::LIST)?;
    with_word(alloc, listed, "key", "KEY", help::KEY)
}

/// A command on what a person is granted on a list.
fn grant_of_command<'a>(alloc: Global, name: &'a str, help: Help) -> Result<Command<'a>, AllocError>
    ensures { IfOk result (CommandParsesAsApp (grant_target_app name.entry.now)) }
{
    let command = table_command(alloc, name, help)?;
    let named = with_word(alloc, command, "person", "PERSON", help::PERSON)?;
    let listed = with_word(alloc, named, "list", "LIST", help::LIST)?;
    with_word(alloc, listed, "kind", "KIND", help::KIND)
}

/// `sift` with the options of the day and of the age.
fn dated_command<'a>(alloc: Global) -> Result<Command<'a>, AllocError>
    ensures { IfOk result (CommandParsesAsApp sift_dates_app) }
{
    let command = new_command(alloc, "sift", help::SIFT);
    let dated = with_option(alloc, command, "day", "DAY", help::DAY)?;
    with_option(alloc, dated, "min-age", "DAYS", help::MIN_AGE)
}

fn sift_command<'a>(alloc: Global) -> Result<Command<'a>, AllocError>
    ensures { IfOk result (CommandParsesAsApp sift_app) }
{
    let dated = dated_command(alloc)?;
    let ruled = with_option(alloc, dated, "policy", "FILE", help::POLICY)?;
    let listed = with_option(alloc, ruled, "list", "NAME", help::SIFT_LIST)?;
    with_option(alloc, listed, "standing", "STANDING", help::STANDING)
}

fn list_add_command<'a>(alloc: Global) -> Result<Command<'a>, AllocError>
    ensures { IfOk result (CommandParsesAsApp list_add_app) }
{
    let command = table_command(alloc, "list-add", help::LIST_ADD)?;
    with_word(alloc, command, "name", "NAME", help::NAME)
}

fn merge_command<'a>(alloc: Global) -> Result<Command<'a>, AllocError>
    ensures { IfOk result (CommandParsesAsApp merge_app) }
{
    let command = table_command(alloc, "merge", help::MERGE)?;
    let listed = with_word(alloc, command, "list", "LIST", help::LIST)?;
    with_word(alloc, listed, "merge", "MERGE", help::MERGED)
}

fn person_add_command<'a>(alloc: Global) -> Result<Command<'a>, AllocError>
    ensures { IfOk result (CommandParsesAsApp person_add_app) }
{
    let command = table_command(alloc, "person-add", help::PERSON_ADD)?;
    let named = with_word(alloc, command, "name", "NAME", help::NAME)?;
    with_word(alloc, named, "token", "TOKEN", help::TOKEN)
}

fn person_address_command<'a>(alloc: Global) -> Result<Command<'a>, AllocError>
    ensures { IfOk result (CommandParsesAsApp person_address_app) }
{
    let command = table_command(alloc, "person-address", help::PERSON_ADDRESS)?;
    let named = with_word(alloc, command, "person", "PERSON", help::PERSON)?;
    with_word(alloc, named, "address", "ADDRESS", help::ADDRESS)
}

fn grant_command<'a>(alloc: Global) -> Result<Command<'a>, AllocError>
    ensures { IfOk result (CommandParsesAsApp grant_app) }
{
    let command = grant_of_command(alloc, "grant", help::GRANT)?;
    let from = with_word(alloc, command, "from", "FROM", help::FROM)?;
    with_word(alloc, from, "until", "UNTIL", help::GRANT_UNTIL)
}

fn revoke_command<'a>(alloc: Global) -> Result<Command<'a>, AllocError>
    ensures { IfOk result (CommandParsesAsApp revoke_app) }
{
    grant_of_command(alloc, "revoke", help::REVOKE)
}

fn import_command<'a>(alloc: Global) -> Result<Command<'a>, AllocError>
    ensures { IfOk result (CommandParsesAsApp import_app) }
{
    let command = table_command(alloc, "import", help::IMPORT)?;
    let listed = with_word(alloc, command, "list", "LIST", help::LIST)?;
    with_word(alloc, listed, "mbox", "MBOX", help::MBOX)
}

fn withdraw_command<'a>(alloc: Global) -> Result<Command<'a>, AllocError>
    ensures { IfOk result (CommandParsesAsApp withdraw_app) }
{
    let command = message_command(alloc, "withdraw", help::WITHDRAW)?;
    with_word(alloc, command, "by", "BY", help::BY)
}

fn restore_command<'a>(alloc: Global) -> Result<Command<'a>, AllocError>
    ensures { IfOk result (CommandParsesAsApp restore_app) }
{
    message_command(alloc, "restore", help::RESTORE)
}

fn embargo_command<'a>(alloc: Global) -> Result<Command<'a>, AllocError>
    ensures { IfOk result (CommandParsesAsApp embargo_app) }
{
    let command = message_command(alloc, "embargo", help::EMBARGO)?;
    with_word(alloc, command, "until", "UNTIL", help::EMBARGO_UNTIL)
}

fn lift_command<'a>(alloc: Global) -> Result<Command<'a>, AllocError>
    ensures { IfOk result (CommandParsesAsApp lift_app) }
{
    message_command(alloc, "lift", help::LIFT)
}

/// A command over a database by a policy, on a day.
fn ruled_command<'a>(alloc: Global, name: &'a str, help: Help) -> Result<Command<'a>, AllocError>
    ensures { IfOk result (CommandParsesAsApp (policy_app name.entry.now)) }
{
    let command = table_command(alloc, name, help)?;
    let ruled = with_needed(alloc, command, "policy", "POLICY", help::RULES)?;
    with_option(alloc, ruled, "day", "DAY", help::TODAY)
}

/// A question of a reader on a list.
fn ask_command<'a>(alloc: Global, name: &'a str, help: Help) -> Result<Command<'a>, AllocError>
    ensures { IfOk result (CommandParsesAsApp (reader_query_app name.entry.now)) }
{
    let command = ruled_command(alloc, name, help)?;
    let asked = with_option(alloc, command, "person", "PERSON", help::ASKING)?;
    with_word(alloc, asked, "list", "LIST", help::LIST)
}

fn get_command<'a>(alloc: Global) -> Result<Command<'a>, AllocError>
    ensures { IfOk result (CommandParsesAsApp get_app) }
{
    let command = ask_command(alloc, "get", help::GET)?;
    with_word(alloc, command, "key", "KEY", help::KEY)
}

fn export_command<'a>(alloc: Global) -> Result<Command<'a>, AllocError>
    ensures { IfOk result (CommandParsesAsApp export_app) }
{
    ask_command(alloc, "export", help::EXPORT)
}

fn check_command<'a>(alloc: Global) -> Result<Command<'a>, AllocError>
    ensures { IfOk result (CommandParsesAsApp check_app) }
{
    table_command(alloc, "check", help::CHECK)
}

fn serve_command<'a>(alloc: Global) -> Result<Command<'a>, AllocError>
    ensures { IfOk result (CommandParsesAsApp serve_app) }
{
    let command = ruled_command(alloc, "serve", help::SERVE)?;
    let ported = with_needed(alloc, command, "port", "PORT", help::PORT)?;
    with_needed(alloc, ported, "count", "COUNT", help::COUNT)
}

/// The program with a command more.
fn with_command<'a>(program: Command<'a>, command: Command<'a>) -> Result<Command<'a>, AllocError>
    ensures { (app : App) → (sub : App) → CommandParsesAsApp app program.entry → CommandParsesAsApp sub command.entry
        → IfOk result (CommandParsesAsApp (with_command app sub)) }
{
    let more = program.subcommand(command)?;
    Ok(more)
}

/// The command with the version, whose words do not begin with the program's name.
fn versioned<'a>(command: Command<'a>) -> Command<'a>
    ensures { (app : App) → CommandParsesAsApp app command.entry → CommandParsesAsApp (with_version_flag app) result }
{
    command.version(VERSION).no_binary_name(true)
}

/// The command with the name that its usage begins with.
fn named<'a>(command: Command<'a>, name: &'a str) -> Result<Command<'a>, AllocError>
    ensures { (app : App) → CommandParsesAsApp app command.entry → IfOk result (CommandParsesAsApp app) }
{
    let named = command.bin_name(name)?;
    Ok(named)
}

/// The program without its commands.
fn bare_program<'a>(alloc: Global) -> Result<Command<'a>, AllocError>
    ensures { IfOk result (CommandParsesAsApp bare_app) }
{
    let command = new_command(alloc, "archive", help::ARCHIVE);
    named(versioned(command), "archive")
}

/// The program with `sift` and the commands on lists.
fn list_program<'a>(alloc: Global) -> Result<Command<'a>, AllocError>
    ensures { IfOk result (CommandParsesAsApp app_with_list_commands) }
{
    let sifting = with_command(bare_program(alloc)?, sift_command(alloc)?)?;
    let listing = with_command(sifting, list_add_command(alloc)?)?;
    with_command(listing, merge_command(alloc)?)
}

/// The same, with the commands on persons.
fn person_program<'a>(alloc: Global) -> Result<Command<'a>, AllocError>
    ensures { IfOk result (CommandParsesAsApp app_with_person_commands) }
{
    let naming = with_command(list_program(alloc)?, person_add_command(alloc)?)?;
    let addressing = with_command(naming, person_address_command(alloc)?)?;
    let granting = with_command(addressing, grant_command(alloc)?)?;
    with_command(granting, revoke_command(alloc)?)
}

/// The same, with the commands on messages.
fn mail_program<'a>(alloc: Global) -> Result<Command<'a>, AllocError>
    ensures { IfOk result (CommandParsesAsApp app_with_message_commands) }
{
    let importing = with_command(person_program(alloc)?, import_command(alloc)?)?;
    let withdrawing = with_command(importing, withdraw_command(alloc)?)?;
    let restoring = with_command(withdrawing, restore_command(alloc)?)?;
    let holding = with_command(restoring, embargo_command(alloc)?)?;
    with_command(holding, lift_command(alloc)?)
}

/// The program with all of its commands. Its words do not begin with its name.
pub fn program_usage<'a>(alloc: Global) -> Result<Command<'a>, AllocError>
    ensures { IfOk result (CommandParsesAsApp archive_app) }
{
    let getting = with_command(mail_program(alloc)?, get_command(alloc)?)?;
    let exporting = with_command(getting, export_command(alloc)?)?;
    let checking = with_command(exporting, check_command(alloc)?)?;
    with_command(checking, serve_command(alloc)?)
}

/// The command of this name alone, with the name that its usage begins with; else the program.
#[tactic(auto, unfolding(crate::specs::Program::app_named))]
pub fn command_named<'a>(alloc: Global, name: &str) -> Result<Command<'a>, AllocError>
    ensures { IfOk result (CommandParsesAsApp (app_named name.now)) }
{
    match name {
        "sift" => named(sift_command(alloc)?, "archive sift"),
        "list-add" => named(list_add_command(alloc)?, "archive list-add"),
        "merge" => named(merge_command(alloc)?, "archive merge"),
        "person-add" => named(person_add_command(alloc)?, "archive person-add"),
        "person-address" => named(person_address_command(alloc)?, "archive person-address"),
        "grant" => named(grant_command(alloc)?, "archive grant"),
        "revoke" => named(revoke_command(alloc)?, "archive revoke"),
        "import" => named(import_command(alloc)?, "archive import"),
        "withdraw" => named(withdraw_command(alloc)?, "archive withdraw"),
        "restore" => named(restore_command(alloc)?, "archive restore"),
        "embargo" => named(embargo_command(alloc)?, "archive embargo"),
        "lift" => named(lift_command(alloc)?, "archive lift"),
        "get" => named(get_command(alloc)?, "archive get"),
        "export" => named(export_command(alloc)?, "archive export"),
        "check" => named(check_command(alloc)?, "archive check"),
        "serve" => named(serve_command(alloc)?, "archive serve"),
        _ => program_usage(alloc),
    }
}
