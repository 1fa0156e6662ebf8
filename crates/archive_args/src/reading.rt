//! Reading the words of a command line.
ghost use Rattle.std.specs.Prelude.{◌≡◌, ◌⊎◌, Some, None, [], false, IfOk, IfErr, MatchResult, map, option_map};
ghost use Rattle.clap.specs.Words.{fault_of, takes, subcommand_rows_of, found_of, rows_of};
ghost use Rattle.archive_args.specs.Program.{archive_app};
ghost use Rattle.archive_args.specs.Orders.{sift_order_of_rows, import_order_of_rows, ask_values_of_rows, get_order_of_rows, export_order_of_rows, check_order_of_rows};
ghost use Rattle.archive_args.specs.Orders.{serve_order_of_rows, store_values_of_rows, order_named, order_of, order_of_args, IsOutOfMemoryStop, IsOrderStopOf};

use crate::orders::{
    CheckArgs, GetArgs, ImportArgs, Order, OrderStop, ReaderArgs, ServeArgs, SiftArgs,
};
use crate::stops::{BadValue, bad_value_text, stop_of, stop_with};
use crate::table_reading::table_order;
use crate::values::{
    DEFAULT_LIST, count_of, given_age, given_day, given_list, given_standing, needed, port_of,
    text_of,
};
use archive_usage::program_usage;
use clap::ArgMatches;
use policy_core::Standing;
use std::alloc::Global;

/// The order of `sift`'s matches.
fn sift_order<'a>(inner: &ArgMatches<'a>) -> Result<Order<'a>, BadValue<'a>>
    ensures { MatchResult result
        (λ order. sift_order_of_rows (rows_of (found_of inner.now)) ≡ Some order)
        (λ _. sift_order_of_rows (rows_of (found_of inner.now)) ≡ None) }
{
    let day = given_day(text_of(inner, "day"))?;
    let min_age = given_age(text_of(inner, "min-age"))?;
    let standing = given_standing(text_of(inner, "standing"))?;
    let policy = text_of(inner, "policy");
    let list = given_list(text_of(inner, "list"));
    Ok(Order::Sift(SiftArgs {
        day,
        min_age,
        policy,
        list,
        standing,
    }))
}

/// The order of `import`'s matches.
fn import_order<'a>(inner: &ArgMatches<'a>) -> Result<Order<'a>, BadValue<'a>>
    ensures { MatchResult result
        (λ order. import_order_of_rows (rows_of (found_of inner.now)) ≡ Some order)
        (λ _. import_order_of_rows (rows_of (found_of inner.now)) ≡ None) }
{
    let file = needed(inner, "db")?;
    let list = needed(inner, "list")?;
    let mbox = needed(inner, "mbox")?;
    Ok(Order::Import(ImportArgs { file, list, mbox }))
}

/// The question of a reader.
fn ask_order<'a>(inner: &ArgMatches<'a>) -> Result<ReaderArgs<'a>, BadValue<'a>>
    ensures { MatchResult result
        (λ asked. ask_values_of_rows (rows_of (found_of inner.now)) ≡ Some asked)
        (λ _. ask_values_of_rows (rows_of (found_of inner.now)) ≡ None) }
{
    let file = needed(inner, "db")?;
    let policy = needed(inner, "policy")?;
    let day = given_day(text_of(inner, "day"))?;
    let list = needed(inner, "list")?;
    let person = text_of(inner, "person");
    Ok(ReaderArgs {
        file,
        policy,
        day,
        person,
        list,
    })
}

/// The order of `get`'s matches.
fn get_order<'a>(inner: &ArgMatches<'a>) -> Result<Order<'a>, BadValue<'a>>
    ensures { MatchResult result
        (λ order. get_order_of_rows (rows_of (found_of inner.now)) ≡ Some order)
        (λ _. get_order_of_rows (rows_of (found_of inner.now)) ≡ None) }
{
    let asked = ask_order(inner)?;
    let key = needed(inner, "key")?;
    Ok(Order::Get(GetArgs { asked, key }))
}

/// The order of `export`'s matches.
fn export_order<'a>(inner: &ArgMatches<'a>) -> Result<Order<'a>, BadValue<'a>>
    ensures { MatchResult result
        (λ order. export_order_of_rows (rows_of (found_of inner.now)) ≡ Some order)
        (λ _. export_order_of_rows (rows_of (found_of inner.now)) ≡ None) }
{
    let asked = ask_order(inner)?;
    Ok(Order::Export(asked))
}

/// The order of `check`'s matches.
fn check_order<'a>(inner: &ArgMatches<'a>) -> Result<Order<'a>, BadValue<'a>>
    ensures { MatchResult result
        (λ order. check_order_of_rows (rows_of (found_of inner.now)) ≡ Some order)
        (λ _. check_order_of_rows (rows_of (found_of inner.now)) ≡ None) }
{
    let file = needed(inner, "db")?;
    Ok(Order::Check(CheckArgs { file }))
}

/// The order of `serve`'s matches.
fn serve_order<'a>(inner: &ArgMatches<'a>) -> Result<Order<'a>, BadValue<'a>>
    ensures { MatchResult result
        (λ order. serve_order_of_rows (rows_of (found_of inner.now)) ≡ Some order)
        (λ _. serve_order_of_rows (rows_of (found_of inner.now)) ≡ None) }
{
    let file = needed(inner, "db")?;
    let policy = needed(inner, "policy")?;
    let day = given_day(text_of(inner, "day"))?;
    let port = port_of(inner)?;
    let count = count_of(inner)?;
    Ok(Order::Serve(ServeArgs {
        file,
        policy,
        day,
        port,
        count,
    }))
}

/// The order of a command over a database of this name.
fn named_table_order<'a>(name: &'a str, inner: &ArgMatches<'a>) -> Result<Order<'a>, BadValue<'a>>
    ensures { MatchResult result
        (λ order. option_map Order.Table (store_values_of_rows name.entry.now (rows_of (found_of inner.now))) ≡ Some order)
        (λ _. option_map Order.Table (store_values_of_rows name.entry.now (rows_of (found_of inner.now))) ≡ None) }
{
    let order = table_order(name, inner)?;
    Ok(Order::Table(order))
}

/// The order of the command that was met.
fn read_order<'a>(matches: &ArgMatches<'a>) -> Result<Order<'a>, BadValue<'a>>
    ensures { MatchResult result
        (λ order. order_of (subcommand_rows_of matches.now) ≡ Some order)
        (λ _. order_of (subcommand_rows_of matches.now) ≡ None) }
{
    match matches.subcommand() {
        None => Ok(Order::Sift(SiftArgs {
            day: None,
            min_age: None,
            policy: None,
            list: DEFAULT_LIST,
            standing: Standing::Public,
        })),
        Some((name, inner)) => named_order(name, inner),
    }
}

/// The order of a command of this name.
fn named_order<'a>(name: &'a str, inner: &ArgMatches<'a>) -> Result<Order<'a>, BadValue<'a>>
    ensures { MatchResult result
        (λ order. order_named name.entry.now (rows_of (found_of inner.now)) ≡ Some order)
        (λ _. order_named name.entry.now (rows_of (found_of inner.now)) ≡ None) }
{
    match name {
        "sift" => sift_order(inner),
        "import" => import_order(inner),
        "get" => get_order(inner),
        "export" => export_order(inner),
        "check" => check_order(inner),
        "serve" => serve_order(inner),
        _ => named_table_order(name, inner),
    }
}

/// The order of some words, which do not begin with the program's name.
pub fn order<'a>(alloc: Global, words: &'a [&'a str]) -> Result<Order<'a>, OrderStop>
    ensures ok { IfOk result (λ order. order_of_args (map (λ w. w.now) words.entry.now) ≡ Some order) }
    ensures taken { IfOk result (λ _. fault_of archive_app (map (λ w. w.now) words.entry.now) ≡ []) }
    ensures refused { IfErr result (λ stop. IsOutOfMemoryStop stop
        ⊎ ((takes archive_app (map (λ w. w.now) words.entry.now) ≡ false)
        ⊎ (order_of_args (map (λ w. w.now) words.entry.now) ≡ None))) }
    ensures stopped { IfErr result (IsOrderStopOf (map (λ w. w.now) words.entry.now)) }
{
    let Ok(mut command) = program_usage(alloc) else {
        return Err(OrderStop::Memory);
    };
    let matches = match command.try_get_matches_from_mut(words) {
        Ok(matches) => matches,
        Err(error) => return Err(stop_of(alloc, &error)),
    };
    match read_order(&matches) {
        Ok(order) => Ok(order),
        Err(bad) => {
            let name = matches.subcommand_name().unwrap_or("");
            Err(stop_with(bad_value_text(alloc, name, &bad), true))
        }
    }
}
