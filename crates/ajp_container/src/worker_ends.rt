//! How workers of a container end, and what they give back.

use jk_io::ListOf;

/// Why a worker thread ended.
#[derive(Clone, Copy, PartialEq, Eq)]
pub enum ContainerWorker {
    /// No client comes any more. `links` counts those that were served.
    Closed { links: u64 },
    /// The door failed.
    DoorFault,
    NoMemory,
}

/// How the workers ended, in the order of their doors.
pub type ContainerWorkerList = ListOf<ContainerWorker>;

/// Doors, in order.
pub type DoorList<D> = ListOf<D>;

/// How the workers of a run ended, and all that they served at, in order.
#[derive(Drop)]
pub struct ContainerRun<Q> {
    pub workers: ContainerWorkerList,
    pub back: Vec<Q>,
}

/// What a run gives back, an item for each worker in each list.
#[derive(Drop)]
pub struct ContainerRunEnd<D> {
    pub workers: ContainerWorkerList,
    pub doors: DoorList<D>,
}
