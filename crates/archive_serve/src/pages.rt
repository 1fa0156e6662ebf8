//! The archive's pages as a service.
ghost use Rattle.std.specs.Prelude.{◌≡◌, MatchResult};
ghost use Rattle.archive_serve.specs.Keeping.{fresh_serving_context};
ghost use Rattle.archive_serve.specs.Pages.{OnlyCountsRefusal};

use crate::faults::ServingError;
use archive_cache::Cache;
use archive_listen::{ConnectionError, Service};
use archive_pages::{Pages, ServeFault, answer_cached};
use archive_port::ArchiveStore;
use archive_requests::Routes;
use civil_time::Day;
use mbox_core::device::{Sink, Source};
use policy_core::Policy;
use std::alloc::Global;
use std::marker::Model;
use thread_core::Threader;

/// By what connections are answered.
#[derive(Drop)]
pub struct ServingContext<'a, T> {
    /// What gives memory.
    pub alloc: Global,
    /// Decides what each reader is shown.
    pub policy: &'a Policy,
    /// Threads the messages of a list.
    pub threader: &'a T,
    /// The day that the policy is asked about, in UTC.
    pub day: Day,
    /// How many bytes of lists, months and authors are kept at most for the connections behind, or one of them alone.
    pub most: usize,
}

/// Answers requests by pages, out of a store that stays as it is. What is read of lists for threads, of months and of authors is kept
/// for those that follow.
#[derive(Drop)]
pub(crate) struct PageService<'a, T> {
    pages: Pages<'a, T>,
}

impl<'a, T> Model for PageService<'a, T> {
    ghost use Rattle.std.specs.Prelude.{is_some};
    ghost use Rattle.archive_serve.specs.Keeping.{ServingContextState};

    ghost Value = { ServingContextState };

    ghost view = { λ p. record { rules = p.pages.policy.now; day = p.pages.day; routes = is_some p.pages.routes; kept = p.pages.kept } };
}

impl<'a, T> PageService<'a, T> {
    /// It has routes, and keeps nothing yet. F5: the memory of the routes was refused, which the store counts.
    pub(crate) fn new<S: ArchiveStore>(
        terms: &ServingContext<'a, T>,
        store: &mut S,
    ) -> Result<PageService<'a, T>, ServingError>
        ensures { MatchResult result
            (λ service. (service ≡ fresh_serving_context terms.now.policy.now terms.now.day terms.now.most)
            × (store.new ≡ store.old))
            (λ stop. (stop ≡ ServingError.Memory) × OnlyCountsRefusal S.ArchiveState store.old store.new) }
    {
        let routes = match Routes::new(terms.alloc) {
            Ok(routes) => routes,
            Err(refused) => {
                store.count_refusal(refused.into());
                return Err(ServingError::from(refused));
            }
        };
        Ok(PageService {
            pages: Pages {
                alloc: terms.alloc,
                policy: terms.policy,
                threader: terms.threader,
                day: terms.day,
                routes: Some(routes),
                kept: Cache::new(terms.alloc, terms.most),
            },
        })
    }
}

impl<'a, T: Threader, S: ArchiveStore> Service<S> for PageService<'a, T> {
    ghost use Rattle.archive_serve.specs.Keeping.{AnswersFromCache};

    ghost answers = { λ p q. AnswersFromCache S.ArchiveState p q };

    fn answer<R: Source, W: Sink>(
        &mut self,
        state: &mut S,
        input: &mut R,
        output: &mut W,
    ) -> Result<u16, ConnectionError> {
        let answered = answer_cached(state, &mut self.pages, input, output);
        match answered {
            Ok(status) => Ok(status.as_u16()),
            Err(ServeFault::Read) => Err(ConnectionError::Read),
            Err(ServeFault::Write { .. }) => Err(ConnectionError::Write),
            Err(ServeFault::Broken { .. }) => Err(ConnectionError::Broken),
        }
    }
}
