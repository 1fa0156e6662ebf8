//! The devices of a system, with streams that are handed in.
use crate::threaders::SystemThreaders;
use archive_files::ArchiveDatabases;
use archive_listen::{BufferedSink, LoopbackPorts};
use archive_run::{Environment, Platform};
use archive_store::Store;
use mbox_core::device::{Sink, Source};
use sift_run::{SystemClock, SystemFiles};
use sqlite::Alter;
use std::marker::PhantomData;

/// The kinds of a system's devices, over databases `B` whose pages lie in `T`.
pub struct SystemPlatform<'a, T, B, I, O, E> {
    of: PhantomData<(&'a HostRuntime, T, B, I, O, E)>,
}

impl<
    'a,
    T: Alter + Drop,
    B: ArchiveDatabases<T> + Drop,
    I: Source + Drop,
    O: BufferedSink + Drop,
    E: Sink + Drop,
> Platform for SystemPlatform<'a, T, B, I, O, E> {
    type Archive = Store<T>;

    type Files = SystemFiles<'a, HostRuntime>;

    type Databases = B;

    type Clock = SystemClock<'a, HostRuntime>;

    type Ports = LoopbackPorts<'a, HostRuntime>;

    type Threaders = SystemThreaders<'a, HostRuntime>;

    type Input = I;

    type Output = O;

    type Faults = E;

    ghost opens_held = { B.opens_held };

    ghost closes_held = { B.closes_held };

    ghost unopened_held = { B.unopened_held };
}

/// Returns the devices of a system, over these databases and streams. It opens nothing, and no clause says that the devices are these.
pub fn make_environment<
    'a,
    T: Alter + Drop,
    B: ArchiveDatabases<T> + Drop,
    I: Source + Drop,
    O: BufferedSink + Drop,
    E: Sink + Drop,
>(
    rt: &'a HostRuntime,
    databases: B,
    input: I,
    output: O,
    faults: E,
) -> Environment<SystemPlatform<'a, T, B, I, O, E>> {
    Environment {
        files: SystemFiles { rt },
        databases,
        clock: SystemClock { rt },
        ports: LoopbackPorts::new(rt, rt.alloc()),
        threaders: SystemThreaders { rt },
        input,
        output,
        faults,
    }
}
