//! Commands on grants.
use crate::commands::had_grant;
use crate::store::Store;
use archive_port::{Command, StoreFault};
use civil_time::Day;
use policy_core::GrantKind;
use sqlite::Alter;

impl<S: Alter> Store<S> {
    ghost use Rattle.archive_model.specs.Machine.{step};
    ghost use Rattle.archive_store.specs.Held.{store_connection};
    ghost use Rattle.archive_store.specs.Refusals.{IsCommandRefused};
    ghost use Rattle.archive_store.specs.Told.{EndsWrite};
    ghost use Rattle.policy_core.specs.Numbers.{grant_kind_rank};
    ghost use Rattle.archive_model.specs.Commands.{grant, revoke, no_person, no_list, bad_days};
    ghost use Rattle.archive_store.specs.Crashes.{CrashSteps};
    ghost use Rattle.archive_store.specs.Replies.{PerformsModelStep};
    ghost use Rattle.archive_port.specs.Replies.{reply_if_done, reply_if_removed};
    ghost use Rattle.std.specs.Prelude.{[], ◌∷◌};

    /// Grants a kind from one day to another, both within; a grant of that kind is replaced. E6 where there is no such
    /// person, E4 where there is no such list, E11 where the last day comes before the first.
    pub fn grant(
        &mut self,
        person: &str,
        list: &str,
        kind: GrantKind,
        from: Day,
        until: Day,
    ) -> Result<(), StoreFault>
        ensures step { PerformsModelStep S.Store (store_connection self.old) (store_connection self.new)
            (λ a. step a (grant person.now list.now (grant_kind_rank kind) from until)) (reply_if_done result) }
        ensures crash { CrashSteps S.Store (store_connection self.old) (store_connection self.new)
            (λ a. step a (grant person.now list.now (grant_kind_rank kind) from until)) }
        ensures ends { EndsWrite S.Store self.old self.new result (no_person ∷ no_list ∷ bad_days ∷ [])
            (IsCommandRefused (grant person.now list.now (grant_kind_rank kind) from until)) }
    {
        self.carry_done(&Command::Grant {
            person,
            list,
            kind,
            from,
            until,
        })
    }

    /// Takes a grant away, and says whether it was there. E6 where there is no such person, E4 where there is no such
    /// list.
    pub fn revoke(&mut self, person: &str, list: &str, kind: GrantKind) -> Result<bool, StoreFault>
        ensures step { PerformsModelStep S.Store (store_connection self.old) (store_connection self.new)
            (λ a. step a (revoke person.now list.now (grant_kind_rank kind))) (reply_if_removed result) }
        ensures crash { CrashSteps S.Store (store_connection self.old) (store_connection self.new)
            (λ a. step a (revoke person.now list.now (grant_kind_rank kind))) }
        ensures ends { EndsWrite S.Store self.old self.new result (no_person ∷ no_list ∷ [])
            (IsCommandRefused (revoke person.now list.now (grant_kind_rank kind))) }
    {
        had_grant(self.carry(&Command::Revoke { person, list, kind }))
    }
}
