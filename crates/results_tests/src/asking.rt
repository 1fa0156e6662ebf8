//! What a question asks a threader: once, and of the messages of the view alone.
use crate::noting::{Noted, Noting};
use crate::views::{key, view};
use archive_results::{thread_lines, tree_lines};
use policy_core::Standing;
use std::alloc::Global;
use std::test::Fail;

/// How often all threads, or the thread of a message, ask for links and for rows, and of what.
fn asked(alloc: Global, standing: Standing, place: Option<usize>) -> Result<Noted, Fail> {
    let noting = Noting::new(alloc);
    match place {
        None => {
            tree_lines(alloc, &noting, view(alloc, standing)?, true)?;
        }
        Some(at) => {
            thread_lines(
                alloc,
                &noting,
                view(alloc, standing)?,
                true,
                &key(alloc, at)?,
            )?;
        }
    }
    Ok(noting.into_noted())
}

#[test]
fn each_question_asks_the_threader_once_of_the_view_alone(rt: HostRuntime) -> Result<(), Fail> {
    let public: &[u8] = b"|<1> hello re|<1> hello re|tea";
    let all: &[u8] = b"|1 hello|<1> hello re|<1> hello re|tea";
    let cases: [(Standing, Option<usize>, usize, &[u8]); 5] = [
        (Standing::Public, None, 1, public),
        (Standing::Moderator, None, 1, all),
        (Standing::Public, Some(2), 1, public),
        (Standing::Moderator, Some(0), 1, all),
        // what the view does not hold has no thread
        (Standing::Public, Some(0), 0, b""),
    ];
    for (number, (standing, place, times, want)) in cases.iter().enumerate() {
        let noted = asked(rt.alloc(), *standing, *place)?;
        assert!(rt;
            noted.joins == *times && noted.rows == *times,
            "case {number}"
        );
        assert!(rt; noted.entries.as_slice() == *want, "case {number}");
    }
    Ok(())
}
