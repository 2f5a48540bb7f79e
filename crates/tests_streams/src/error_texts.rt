//! What is said of texts that are no traces.

use std::alloc::AllocError;
use trace_text::TraceError;
use unit_layout::LayoutError;

#[test]
fn each_error_has_its_text(rt: HostRuntime) -> Result<(), AllocError> {
    for (error, text) in [
        (
            TraceError::BadLine { line: 3 },
            "line 3 can't stand where it is",
        ),
        (
            TraceError::Layout(LayoutError::NoCpu { group: 2 }),
            "group 2 has no processor",
        ),
        (TraceError::OutOfMemory, "out of memory"),
    ] {
        let told = error.to_string(rt.alloc())?;
        assert!(rt; told.as_str() == text, "{text}");
    }
    Ok(())
}
