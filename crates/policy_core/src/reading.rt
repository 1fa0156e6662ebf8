//! Reading a written policy.
ghost use Rattle.std.specs.Prelude.{◌≡◌, ◌≢◌, [], Some, Ok, Err, IfOk, IfErr, map, bytes_eq, codes};
ghost use Rattle.std.specs.List.{list_all};
ghost use Rattle.toml.specs.Data.{get_member};
ghost use Rattle.toml.specs.View.{view, table_view};
ghost use Rattle.policy_core.specs.Reading.{ReadsOrRefuses, ReadsRefusesOrLacksMemory, tables_of_values};
ghost use Rattle.policy_core.specs.Written.{refusal_if, is_some_and_fails, is_array_of, written_policy, tree_refusal, rule_tables, rules_refusal, rule_of, member_keys, is_table_value, rule_values};

use crate::faults::PolicyFault;
use crate::rule_reading::{at, read_rule};
use crate::rules::Rule;
use std::alloc::Global;
use toml::{Table, Value};

/// The most rules of a policy.
const MOST_RULES: usize = 200;

/// The rules of a policy's text, or its first refusal.
pub(crate) fn read_policy(alloc: Global, text: &str) -> Result<Vec<Rule>, PolicyFault>
    ensures ok { IfOk result (λ rules. written_policy text.now ≡ Ok rules.items) }
    ensures refused { IfErr result
        (λ fault. fault ≢ PolicyFault.Memory → written_policy text.now ≡ Err fault) }
{
    match toml::table_from_str(alloc, text) {
        Ok(tree) => read_tree(alloc, &tree),
        Err(fault) => {
            if fault.is_memory() {
                Err(PolicyFault::Memory)
            } else {
                Err(PolicyFault::NotToml)
            }
        }
    }
}

/// The rules of a policy's tree.
fn read_tree(alloc: Global, tree: &Table) -> Result<Vec<Rule>, PolicyFault>
    ensures { ReadsRefusesOrLacksMemory result
        (tree_refusal (table_view tree.now))
        (λ rules. rules.items ≡ map rule_of (rule_tables (get_member (codes "rule") (table_view tree.now)))) }
{
    if !has_only_rule(tree) {
        return Err(PolicyFault::UnknownKey(0));
    }
    let values = read_array(tree)?;
    if values.len() > MOST_RULES {
        return Err(PolicyFault::TooManyRules);
    }
    read_rules(alloc, values)
}

/// Whether each key is `rule`.
fn has_only_rule(tree: &Table) -> bool
    ensures { result ≡
        list_all
        (λ key. bytes_eq key (codes "rule"))
        (member_keys (table_view tree.now)) }
{
    tree.keys().all(|key| key.as_str() == "rule")
}

/// The members of the array `rule`, each of which is a table. There are none where it is missing.
fn read_array(tree: &Table) -> Result<&[Value], PolicyFault>
    ensures { ReadsOrRefuses result
        (refusal_if (PolicyFault.WrongType 0) (is_some_and_fails (is_array_of is_table_value) (get_member (codes "rule") (table_view tree.entry.now))))
        (λ values. map view values.now ≡ rule_values (get_member (codes "rule") (table_view tree.entry.now))) }
{
    let Some(value) = at(tree, "rule") else {
        return Ok(&[]);
    };
    let Some(values) = value.as_array() else {
        return Err(PolicyFault::WrongType(0));
    };
    if !are_tables(values) {
        return Err(PolicyFault::WrongType(0));
    }
    Ok(values)
}

fn are_tables(values: &[Value]) -> bool
    ensures { result ≡ list_all is_table_value (map view values.now) }
{
    values.iter().all(|value| value.is_table())
}

/// The rules of the tables among some values, numbered from 1.
fn read_rules(alloc: Global, values: &[Value]) -> Result<Vec<Rule>, PolicyFault>
    ensures { ReadsRefusesOrLacksMemory result
        (rules_refusal 1 [] (tables_of_values values.now))
        (λ rules. rules.items ≡ map rule_of (tables_of_values values.now)) }
{
    let mut rules = Vec::new(alloc);
    for value in values {
        if let Some(keys) = value.as_table() {
            let rule = read_rule(alloc, rules.len() + 1, &rules, keys)?;
            rules.push(rule)?;
        }
    }
    Ok(rules)
}
