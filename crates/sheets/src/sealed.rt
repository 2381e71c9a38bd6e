use transition::system::System;
use workbench::workbench::Workbench;

/// A sentence that takes no step any more. To go on, replay its run sheet on a new workbench.
#[derive(Drop)]
pub struct Sealed<S: System> {
    workbench: Workbench<S>,
}

pub mod calls;
pub mod writing;
