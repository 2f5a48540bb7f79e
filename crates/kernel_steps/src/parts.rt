//! A kernel taken apart, for whoever makes its callers' sections by other means than its steps.
ghost use Rattle.std.specs.Prelude.{◌≡◌};
ghost use Rattle.kernel_steps.specs.Kernels.{IsSomewhere};
ghost use Rattle.kernel_steps.specs.KernelOfParts.{kernel_of};

use crate::kernel::Kernel;
use callers::Local;
use section_core::Region;
use std::alloc::Global;

/// What a kernel is made of: its regions and its callers by their numbers, the caller of each event, and the allocator.
#[derive(Drop)]
pub struct KernelParts {
    pub alloc: Global,
    pub regions: Vec<Region>,
    pub locals: Vec<Local>,
    pub moved: Vec<u16>,
}

impl Kernel {
    /// The regions, the callers and the events so far. It takes no memory.
    pub fn into_parts(self) -> KernelParts
        ensures { kernel_of result ≡ self }
    {
        let Kernel {
            alloc,
            regions,
            locals,
            moved,
        } = self;
        KernelParts {
            alloc,
            regions,
            locals,
            moved,
        }
    }

    /// A kernel of regions, callers and events that stand together in some world of some trace. It takes no memory.
    pub fn from_parts(parts: KernelParts) -> Kernel
        requires { IsSomewhere (kernel_of parts) }
        ensures { result ≡ kernel_of parts }
    {
        let KernelParts {
            alloc,
            regions,
            locals,
            moved,
        } = parts;
        Kernel {
            alloc,
            regions,
            locals,
            moved,
        }
    }
}
