//! The policy of an order.
ghost use Rattle.std.specs.Prelude.{◌≡◌, option_map, string_bytes, Some, Ok, Err, IfOk, IfErr, MatchResult};
ghost use Rattle.policy_core.specs.Written.{written_policy};
ghost use Rattle.sift_run.specs.Running.{IsPolicyRefusal, AreRulesOfPolicyFile, IsPolicyErrorCause};

use crate::faults::CommandError;
use crate::files::{FileError, ReadFiles};
use policy_core::{Policy, PolicyFault};
use std::alloc::Global;

/// The text of a policy's file, which is read whole. Read: it is not there, or a read failed (F1). NotToml: it is not
/// UTF-8 (P1). Memory: there was no memory to hold it (F5).
fn read_text<F: ReadFiles>(alloc: Global, files: &F, name: &str) -> Result<String, CommandError>
    ensures ok { IfOk result (λ text. F.gives files.now name.now (Ok (string_bytes text))) }
    ensures refused { IfErr result (IsPolicyErrorCause F.ReadFiles files.now (Some name.now)) }
{
    let bytes = match files.read_file(alloc, name) {
        Ok(bytes) => bytes,
        Err(FileError::Memory) => return Err(CommandError::Memory),
        Err(FileError::Read) => return Err(CommandError::Read),
    };
    match String::from_utf8(bytes) {
        Ok(text) => Ok(text),
        Err(_) => Err(CommandError::Policy(PolicyFault::NotToml)),
    }
}

/// What reading a policy came to: each refusal is handed on as it is.
fn handed_on(read: Result<Policy, PolicyFault>) -> Result<Policy, CommandError>
    ensures { MatchResult read (λ rules. result ≡ Ok rules) (λ fault. result ≡ Err (CommandError.Policy fault)) }
{
    match read {
        Ok(policy) => Ok(policy),
        Err(fault) => Err(CommandError::Policy(fault)),
    }
}

/// The policy that a text writes, or its first refusal, P1 to P8.
fn read_policy(alloc: Global, text: &str) -> Result<Policy, CommandError>
    ensures ok { IfOk result (λ rules. written_policy text.now ≡ Ok rules) }
    ensures refused { IfErr result (IsPolicyRefusal text.now) }
{
    handed_on(Policy::read(alloc, text))
}

/// The policy of a file, or the open one where none is named. F1: the file could not be read. P1 to P8: it is no policy. F5: there was no
/// memory to hold it.
pub fn read_policy_or_open<F: ReadFiles>(
    alloc: Global,
    files: &F,
    name: Option<&str>,
) -> Result<Policy, CommandError>
    ensures ok { IfOk result (AreRulesOfPolicyFile F.ReadFiles files.now (option_map (λ n. n.now) name.entry)) }
    ensures refused { IfErr result (IsPolicyErrorCause F.ReadFiles files.now (option_map (λ n. n.now) name.entry)) }
{
    let Some(name) = name else {
        return Ok(Policy::open());
    };
    let text = read_text(alloc, files, name)?;
    read_policy(alloc, text.as_str())
}
