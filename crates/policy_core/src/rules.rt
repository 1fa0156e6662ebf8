//! Policies, and what their rules say of a reader and a message.
ghost use Rattle.std.specs.Prelude.{◌≡◌, ◌≢◌, ◌∷◌, [], bytes_eq, codes, Bool, false, Ok, Err, None, IfOk, IfErr, IsErr};
ghost use Rattle.std.specs.List.{list_any, AllByRecursion};
ghost use Rattle.toml.specs.Parse.{parse_document};
ghost use Rattle.policy_core.specs.Facts.{Facts as Question};
ghost use Rattle.policy_core.specs.Rules.{Rule as Stated, open_rule, has_own_condition, fits, is_own_condition};
ghost use Rattle.policy_core.specs.Written.{written_policy};
ghost use Rattle.policy_core.specs.Verdict.{RuleFits, IsDecidedBy, denied, ruling_of_verdict, ruling_of_rule, verdict_of};

use crate::access::{Facts, Verdict};
use crate::conditions::Condition;
use crate::faults::PolicyFault;
use crate::reading::read_policy;
use std::alloc::Global;
use std::marker::Model;

/// A rule with the conditions that it states.
#[derive(Debug, Drop)]
pub(crate) struct Rule {
    pub(crate) name: String,
    pub(crate) allows: bool,
    pub(crate) conditions: Vec<Condition>,
}

impl Model for Rule {
    ghost use Rattle.std.specs.Prelude.{map, string_bytes};
    ghost use Rattle.policy_core.specs.Rules.{Rule as Stated};
    ghost use Rattle.policy_core.specs.Stated.{stated_condition};

    ghost Value = { Stated };

    ghost view = { λ r. record { name = string_bytes r.name; allows = r.allows; conditions = map stated_condition r.conditions.items } };
}

/// The rules of a policy.
#[derive(Debug, Drop)]
enum Rules {
    /// The one rule `open`, which allows everything.
    Open,
    /// The rules of a written policy, in their order.
    Written(Vec<Rule>),
}

/// A list of rules; the first that fits decides.
#[derive(Debug, Drop)]
pub struct Policy {
    rules: Rules,
}

impl Model for Policy {
    ghost use Rattle.std.specs.Prelude.{List};
    ghost use Rattle.policy_core.specs.Rules.{Rule as Stated};

    ghost Value = { List Stated };

    ghost use Rattle.policy_core.specs.Seen.{rules_of};

    ghost view = { λ p. rules_of p.rules };
}

impl Policy {
    /// The policy of the one rule `open`, which lets everybody read everything.
    pub fn open() -> Policy
        ensures { result ≡ open_rule ∷ [] }
    {
        Policy { rules: Rules::Open }
    }

    /// The policy that a text writes (docs/POLICY.md), or the first refusal. A refusal for want of memory may come in place
    /// of any other answer.
    pub fn read(alloc: Global, text: &str) -> Result<Policy, PolicyFault>
        ensures ok { IfOk result (λ policy. written_policy text.now ≡ Ok policy) }
        ensures refused { IfErr result (λ fault. fault ≢ PolicyFault.Memory → written_policy text.now ≡ Err fault) }
        ensures not_toml { result ≡ Err PolicyFault.NotToml → parse_document text.now ≡ None }
        ensures no_tree { parse_document text.now ≡ None → IsErr result }
    {
        let rules = read_policy(alloc, text)?;
        Ok(Policy {
            rules: Rules::Written(rules),
        })
    }

    /// What the first rule that fits says, with its name; where none fits, a denial by `default`.
    pub fn verdict(&self, facts: &Facts) -> Verdict<'_>
        ensures value { ruling_of_verdict result ≡ verdict_of self.now facts.now }
        ensures decided { (rule : Stated) → IsDecidedBy self.now facts.now rule → ruling_of_verdict result ≡ ruling_of_rule rule }
        ensures undecided { AllByRecursion (λ rule. ¬ RuleFits rule facts.now) self.now → ruling_of_verdict result ≡ denied (codes "default") }
    {
        match &self.rules {
            Rules::Open => Verdict::Allowed("open"),
            Rules::Written(rules) => match rules.iter().find(|rule| rule.fits(facts)) {
                Some(rule) => rule.verdict(),
                None => Verdict::Denied("default"),
            },
        }
    }

    /// Whether a rule asks if a message is the reader's own. Where none does, the verdict is the same for a message that is
    /// and for one that is not.
    pub fn asks_own(&self) -> bool
        ensures value { result ≡ has_own_condition self.now }
        ensures alike { result ≡ false → (facts : Question) (own : Bool)
            → verdict_of self.now (record facts { own = own }) ≡ verdict_of self.now facts }
    {
        match &self.rules {
            Rules::Open => false,
            Rules::Written(rules) => rules.iter().any(|rule| rule.asks_own()),
        }
    }
}

impl Rule {
    /// Whether all conditions that the rule states hold.
    fn fits(&self, facts: &Facts) -> bool
        ensures { result ≡ fits self.now facts.now }
    {
        self.conditions
            .iter()
            .all(|condition| condition.holds(facts))
    }

    /// Whether the rule asks if a message is the reader's own.
    fn asks_own(&self) -> bool
        ensures { result ≡ list_any is_own_condition self.now.conditions }
    {
        self.conditions
            .iter()
            .any(|condition| condition.is_about_own())
    }

    pub(crate) fn is_named(&self, name: &str) -> bool
        ensures { result ≡ bytes_eq name.now self.now.name }
    {
        name == self.name.as_str()
    }

    fn verdict(&self) -> Verdict<'_>
        ensures { ruling_of_verdict result ≡ ruling_of_rule self.now }
    {
        if self.allows {
            Verdict::Allowed(self.name.as_str())
        } else {
            Verdict::Denied(self.name.as_str())
        }
    }
}
