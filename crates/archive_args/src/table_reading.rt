//! Reading commands over a database.
ghost use Rattle.std.specs.Prelude.{◌≡◌, Some, None, MatchResult, codes};
ghost use Rattle.clap.specs.Words.{found_of, rows_of};
ghost use Rattle.archive_args.specs.Values.{store_command_of};
ghost use Rattle.archive_args.specs.Orders.{list_add_command_of_rows, merge_command_of_rows, person_add_command_of_rows, person_address_command_of_rows, grant_command_of_rows, revoke_command_of_rows};
ghost use Rattle.archive_args.specs.Orders.{withdraw_command_of_rows, restore_command_of_rows, embargo_command_of_rows, lift_command_of_rows, command_named, store_values_of_rows};

use crate::commands::StoreCommand;
use crate::orders::StoreArgs;
use crate::stops::BadValue;
use crate::values::{day_of, is_merged, kind_of_grant, needed, party_of_withdrawal};
use clap::ArgMatches;

fn list_add<'a>(inner: &ArgMatches<'a>) -> Result<StoreCommand<'a>, BadValue<'a>>
    ensures { MatchResult result
        (λ command. list_add_command_of_rows (rows_of (found_of inner.now)) ≡ Some (store_command_of command))
        (λ _. list_add_command_of_rows (rows_of (found_of inner.now)) ≡ None) }
{
    let name = needed(inner, "name")?;
    Ok(StoreCommand::ListAdd { name })
}

fn merge<'a>(inner: &ArgMatches<'a>) -> Result<StoreCommand<'a>, BadValue<'a>>
    ensures { MatchResult result
        (λ command. merge_command_of_rows (rows_of (found_of inner.now)) ≡ Some (store_command_of command))
        (λ _. merge_command_of_rows (rows_of (found_of inner.now)) ≡ None) }
{
    let list = needed(inner, "list")?;
    let merged = is_merged(inner)?;
    Ok(StoreCommand::Merge { list, merged })
}

fn person_add<'a>(inner: &ArgMatches<'a>) -> Result<StoreCommand<'a>, BadValue<'a>>
    ensures { MatchResult result
        (λ command. person_add_command_of_rows (rows_of (found_of inner.now)) ≡ Some (store_command_of command))
        (λ _. person_add_command_of_rows (rows_of (found_of inner.now)) ≡ None) }
{
    let name = needed(inner, "name")?;
    let token = needed(inner, "token")?;
    Ok(StoreCommand::PersonAdd { name, token })
}

fn person_address<'a>(inner: &ArgMatches<'a>) -> Result<StoreCommand<'a>, BadValue<'a>>
    ensures { MatchResult result
        (λ command. person_address_command_of_rows (rows_of (found_of inner.now)) ≡ Some (store_command_of command))
        (λ _. person_address_command_of_rows (rows_of (found_of inner.now)) ≡ None) }
{
    let person = needed(inner, "person")?;
    let address = needed(inner, "address")?;
    Ok(StoreCommand::PersonAddress { person, address })
}

fn grant<'a>(inner: &ArgMatches<'a>) -> Result<StoreCommand<'a>, BadValue<'a>>
    ensures { MatchResult result
        (λ command. grant_command_of_rows (rows_of (found_of inner.now)) ≡ Some (store_command_of command))
        (λ _. grant_command_of_rows (rows_of (found_of inner.now)) ≡ None) }
{
    let person = needed(inner, "person")?;
    let list = needed(inner, "list")?;
    let kind = kind_of_grant(inner)?;
    let from = day_of(inner, "from", "<FROM>")?;
    let until = day_of(inner, "until", "<UNTIL>")?;
    Ok(StoreCommand::Grant {
        person,
        list,
        kind,
        from,
        until,
    })
}

fn revoke<'a>(inner: &ArgMatches<'a>) -> Result<StoreCommand<'a>, BadValue<'a>>
    ensures { MatchResult result
        (λ command. revoke_command_of_rows (rows_of (found_of inner.now)) ≡ Some (store_command_of command))
        (λ _. revoke_command_of_rows (rows_of (found_of inner.now)) ≡ None) }
{
    let person = needed(inner, "person")?;
    let list = needed(inner, "list")?;
    let kind = kind_of_grant(inner)?;
    Ok(StoreCommand::Revoke { person, list, kind })
}

fn withdraw<'a>(inner: &ArgMatches<'a>) -> Result<StoreCommand<'a>, BadValue<'a>>
    ensures { MatchResult result
        (λ command. withdraw_command_of_rows (rows_of (found_of inner.now)) ≡ Some (store_command_of command))
        (λ _. withdraw_command_of_rows (rows_of (found_of inner.now)) ≡ None) }
{
    let list = needed(inner, "list")?;
    let key = needed(inner, "key")?;
    let by = party_of_withdrawal(inner)?;
    Ok(StoreCommand::Withdraw { list, key, by })
}

fn restore<'a>(inner: &ArgMatches<'a>) -> Result<StoreCommand<'a>, BadValue<'a>>
    ensures { MatchResult result
        (λ command. restore_command_of_rows (rows_of (found_of inner.now)) ≡ Some (store_command_of command))
        (λ _. restore_command_of_rows (rows_of (found_of inner.now)) ≡ None) }
{
    let list = needed(inner, "list")?;
    let key = needed(inner, "key")?;
    Ok(StoreCommand::Restore { list, key })
}

fn embargo<'a>(inner: &ArgMatches<'a>) -> Result<StoreCommand<'a>, BadValue<'a>>
    ensures { MatchResult result
        (λ command. embargo_command_of_rows (rows_of (found_of inner.now)) ≡ Some (store_command_of command))
        (λ _. embargo_command_of_rows (rows_of (found_of inner.now)) ≡ None) }
{
    let list = needed(inner, "list")?;
    let key = needed(inner, "key")?;
    let until = day_of(inner, "until", "<UNTIL>")?;
    Ok(StoreCommand::Embargo { list, key, until })
}

fn lift<'a>(inner: &ArgMatches<'a>) -> Result<StoreCommand<'a>, BadValue<'a>>
    ensures { MatchResult result
        (λ command. lift_command_of_rows (rows_of (found_of inner.now)) ≡ Some (store_command_of command))
        (λ _. lift_command_of_rows (rows_of (found_of inner.now)) ≡ None) }
{
    let list = needed(inner, "list")?;
    let key = needed(inner, "key")?;
    Ok(StoreCommand::Lift { list, key })
}

/// The command of this name.
fn table_command<'a>(
    name: &'a str,
    inner: &ArgMatches<'a>,
) -> Result<StoreCommand<'a>, BadValue<'a>>
    ensures { MatchResult result
        (λ command. command_named name.entry.now (rows_of (found_of inner.now)) ≡ Some (store_command_of command))
        (λ _. command_named name.entry.now (rows_of (found_of inner.now)) ≡ None) }
{
    match name {
        "list-add" => list_add(inner),
        "merge" => merge(inner),
        "person-add" => person_add(inner),
        "person-address" => person_address(inner),
        "grant" => grant(inner),
        "revoke" => revoke(inner),
        "withdraw" => withdraw(inner),
        "restore" => restore(inner),
        "embargo" => embargo(inner),
        "lift" => lift(inner),
        _ => Err(BadValue {
            option: "COMMAND",
            text: name,
            wanted: "there is no such command",
        }),
    }
}

/// The order of a command over a database of this name.
pub(crate) fn table_order<'a>(
    name: &'a str,
    inner: &ArgMatches<'a>,
) -> Result<StoreArgs<'a>, BadValue<'a>>
    ensures { MatchResult result
        (λ order. store_values_of_rows name.entry.now (rows_of (found_of inner.now)) ≡ Some order)
        (λ _. store_values_of_rows name.entry.now (rows_of (found_of inner.now)) ≡ None) }
{
    let file = needed(inner, "db")?;
    match table_command(name, inner) {
        Ok(command) => Ok(StoreArgs { file, command }),
        Err(bad) => Err(bad),
    }
}
