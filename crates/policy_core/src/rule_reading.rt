//! Reading a rule: its keys, in the order in which they are tested.
ghost use Rattle.std.specs.Prelude.{◌≡◌, ℕ, List, Bool, Some, None, Ok, Err, IfOk, IfErr, map, not, filter_map, option_map, is_some, bytes_eq, codes, string_bytes};
ghost use Rattle.std.specs.List.{list_all, list_any};
ghost use Rattle.toml.specs.Data.{get_member, as_str, as_bool};
ghost use Rattle.toml.specs.View.{view, table_view};
ghost use Rattle.policy_core.specs.Names.{is_name};
ghost use Rattle.policy_core.specs.Reading.{ReadsOrRefuses, ReadsRefusesOrLacksMemory, text_array_refusal, texts_of_values, rule_names};
ghost use Rattle.policy_core.specs.Stated.{stated_condition};
ghost use Rattle.policy_core.specs.Written.{effect_allows, is_rule_key, member_keys, array_texts, text_at_key, refusal_if, is_text_value, name_refusal, effect_refusal, rule_refusal, rule_of};
ghost use Rattle.policy_core.specs.Written.{key_row, condition_of_value, condition_keys, value_refusal, conditions_refusal, conditions_of};
ghost use Rattle.policy_core.specs.Written.{is_text_array, is_boolean_value, is_integer_value, names_of_value, meanings_of_value, age_of_value, day_of_value};

use crate::access::MOST_DAYS;
use crate::conditions::{Condition, has_no_day};
use crate::faults::PolicyFault;
use crate::keys::{KEYS, Key, is_rule_key};
use crate::names::is_name;
use crate::rules::Rule;
use crate::words::{Word, effect_named};
use civil_time::Day;
use std::alloc::Global;
use toml::{Table, Value};

/// The rule of this number, which comes after others.
pub(crate) fn read_rule(
    alloc: Global,
    number: usize,
    earlier: &[Rule],
    keys: &Table,
) -> Result<Rule, PolicyFault>
    ensures { ReadsRefusesOrLacksMemory result
        (rule_refusal number (rule_names earlier.now) (table_view keys.now))
        (λ rule. rule ≡ rule_of (table_view keys.now)) }
{
    if !has_rule_keys(keys) {
        return Err(PolicyFault::UnknownKey(number));
    }
    let name = read_name(alloc, number, earlier, keys)?;
    let allows = read_effect(number, keys)?;
    let conditions = read_conditions(alloc, number, keys)?;
    if has_no_day(&conditions) {
        return Err(PolicyFault::BadValue(number));
    }
    Ok(Rule {
        name,
        allows,
        conditions,
    })
}

/// Whether each key is one that a rule has.
fn has_rule_keys(keys: &Table) -> bool
    ensures { result ≡ list_all is_rule_key (member_keys (table_view keys.now)) }
{
    keys.keys().all(|key| is_rule_key(key.as_str()))
}

/// The value at a key.
pub(crate) fn at<'t>(keys: &'t Table, key: &str) -> Option<&'t Value>
    ensures { option_map (λ v. view v.now) result ≡ get_member key.now (table_view keys.entry.now) }
{
    keys.get(key)
}

/// The text that a value is.
fn read_text(number: usize, value: &Value) -> Result<&str, PolicyFault>
    ensures ok { IfOk result (λ text. as_str (view value.entry.now) ≡ Some text.now) }
    ensures refused { IfErr result
        (λ fault. (fault ≡ PolicyFault.WrongType number) × (as_str (view value.entry.now) ≡ None)) }
{
    match value {
        Value::String(text) => Ok(text.as_str()),
        _ => Err(PolicyFault::WrongType(number)),
    }
}

fn read_name(
    alloc: Global,
    number: usize,
    earlier: &[Rule],
    keys: &Table,
) -> Result<String, PolicyFault>
    ensures { ReadsRefusesOrLacksMemory result
        (name_refusal number (rule_names earlier.now) (get_member (codes "name") (table_view keys.now)))
        (λ name. string_bytes name ≡ text_at_key (codes "name") (table_view keys.now)) }
{
    let Some(value) = at(keys, "name") else {
        return Err(PolicyFault::BadValue(number));
    };
    let name = read_text(number, value)?;
    if !is_name(name) {
        return Err(PolicyFault::BadName(number));
    }
    if name == "default" || is_among(earlier, name) {
        return Err(PolicyFault::DuplicateName(number));
    }
    Ok(String::from_str(alloc, name)?)
}

/// Whether one of the rules has this name.
fn is_among(rules: &[Rule], name: &str) -> bool
    ensures { result ≡ list_any (bytes_eq name.now) (rule_names rules.now) }
{
    rules.iter().any(|rule| rule.is_named(name))
}

/// Whether the rule allows.
fn read_effect(number: usize, keys: &Table) -> Result<bool, PolicyFault>
    ensures { ReadsOrRefuses result
        (effect_refusal number (get_member (codes "effect") (table_view keys.now)))
        (λ allows. allows ≡ effect_allows (table_view keys.now)) }
{
    let Some(value) = at(keys, "effect") else {
        return Err(PolicyFault::BadValue(number));
    };
    match effect_named(read_text(number, value)?) {
        Some(allows) => Ok(allows),
        None => Err(PolicyFault::BadValue(number)),
    }
}

/// The conditions of a rule, in the order of their keys.
fn read_conditions(
    alloc: Global,
    number: usize,
    keys: &Table,
) -> Result<Vec<Condition>, PolicyFault>
    ensures { ReadsRefusesOrLacksMemory result
        (conditions_refusal number (table_view keys.now) condition_keys)
        (λ conditions. map stated_condition conditions.items ≡ conditions_of (table_view keys.now) condition_keys) }
{
    let mut conditions = Vec::new(alloc);
    for key in &KEYS {
        if let Some(value) = at(keys, key.word()) {
            let condition = read_condition(alloc, number, *key, value)?;
            conditions.push(condition)?;
        }
    }
    Ok(conditions)
}

/// The condition that a value states at a key.
fn read_condition(
    alloc: Global,
    number: usize,
    key: Key,
    value: &Value,
) -> Result<Condition, PolicyFault>
    ensures { ReadsRefusesOrLacksMemory result
        (value_refusal number (key_row key).is_typed (key_row key).read (view value.now))
        (λ condition. condition_of_value key (view value.now) ≡ Some (stated_condition condition)) }
{
    match key {
        Key::Lists => Ok(Condition::Lists(read_names(alloc, number, value)?)),
        Key::Standings => Ok(Condition::Standings(read_words(alloc, number, value)?)),
        Key::Withdrawn => Ok(Condition::Withdrawn(read_words(alloc, number, value)?)),
        Key::Embargo => Ok(Condition::Embargo(read_flag(number, value)?)),
        Key::AgeMin => Ok(Condition::AgeMin(read_age(number, value)?)),
        Key::From => Ok(Condition::From(read_day(number, value)?)),
        Key::Until => Ok(Condition::Until(read_day(number, value)?)),
        Key::Own => Ok(Condition::Own(read_flag(number, value)?)),
    }
}

/// The members of an array of one text or more.
fn read_texts(number: usize, value: &Value) -> Result<&[Value], PolicyFault>
    ensures { ReadsOrRefuses result
        (text_array_refusal number (view value.entry.now))
        (λ values. texts_of_values values.now ≡ array_texts (view value.entry.now)) }
{
    let Some(values) = value.as_array() else {
        return Err(PolicyFault::WrongType(number));
    };
    if !are_texts(values) {
        return Err(PolicyFault::WrongType(number));
    }
    if values.is_empty() {
        return Err(PolicyFault::BadValue(number));
    }
    Ok(values)
}

fn are_texts(values: &[Value]) -> bool
    ensures { result ≡ list_all is_text_value (map view values.now) }
{
    values.iter().all(|value| value.is_str())
}

fn read_names(alloc: Global, number: usize, value: &Value) -> Result<Vec<String>, PolicyFault>
    ensures { ReadsRefusesOrLacksMemory result
        (value_refusal number is_text_array names_of_value (view value.now))
        (λ names. names_of_value (view value.now) ≡ Some (map string_bytes names.items)) }
{
    names_among(alloc, number, read_texts(number, value)?)
}

/// The texts among some values, each of which is to be a name.
fn names_among(alloc: Global, number: usize, values: &[Value]) -> Result<Vec<String>, PolicyFault>
    ensures { ReadsRefusesOrLacksMemory result
        (refusal_if (PolicyFault.BadValue number) (not (list_all is_name (texts_of_values values.now))))
        (λ names. map string_bytes names.items ≡ texts_of_values values.now) }
{
    let mut names = Vec::new(alloc);
    for value in values {
        if let Some(name) = value.as_str() {
            if !is_name(name) {
                return Err(PolicyFault::BadValue(number));
            }
            names.push(String::from_str(alloc, name)?)?;
        }
    }
    Ok(names)
}

fn read_words<W: Word>(alloc: Global, number: usize, value: &Value) -> Result<Vec<W>, PolicyFault>
    ensures { ReadsRefusesOrLacksMemory result
        (value_refusal number is_text_array (meanings_of_value W.named) (view value.now))
        (λ words. meanings_of_value W.named (view value.now) ≡ Some words.items) }
{
    words_among(alloc, number, read_texts(number, value)?)
}

/// What the texts among some values mean, each of which is to be a word.
fn words_among<W: Word>(
    alloc: Global,
    number: usize,
    values: &[Value],
) -> Result<Vec<W>, PolicyFault>
    ensures { ReadsRefusesOrLacksMemory result
        (refusal_if (PolicyFault.BadValue number) (not (list_all (λ word. is_some (W.named word)) (texts_of_values values.now))))
        (λ words. words.items ≡ filter_map W.named (texts_of_values values.now)) }
{
    let mut words = Vec::new(alloc);
    for value in values {
        if let Some(text) = value.as_str() {
            match W::named(text) {
                Some(word) => words.push(word)?,
                None => return Err(PolicyFault::BadValue(number)),
            }
        }
    }
    Ok(words)
}

fn read_flag(number: usize, value: &Value) -> Result<bool, PolicyFault>
    ensures { ReadsOrRefuses result
        (value_refusal number is_boolean_value as_bool (view value.now))
        (λ on. as_bool (view value.now) ≡ Some on) }
{
    match value.as_bool() {
        Some(on) => Ok(on),
        None => Err(PolicyFault::WrongType(number)),
    }
}

fn read_age(number: usize, value: &Value) -> Result<u16, PolicyFault>
    ensures { ReadsOrRefuses result
        (value_refusal number is_integer_value age_of_value (view value.now))
        (λ days. age_of_value (view value.now) ≡ Some days) }
{
    match value.as_integer() {
        Some(days) if 0 <= days && days <= MOST_DAYS => Ok(days as u16),
        Some(_) => Err(PolicyFault::BadValue(number)),
        None => Err(PolicyFault::WrongType(number)),
    }
}

fn read_day(number: usize, value: &Value) -> Result<Day, PolicyFault>
    ensures { ReadsOrRefuses result
        (value_refusal number is_text_value day_of_value (view value.now))
        (λ day. day_of_value (view value.now) ≡ Some day) }
{
    match Day::read(read_text(number, value)?.as_bytes()) {
        Some(day) => Ok(day),
        None => Err(PolicyFault::BadValue(number)),
    }
}
