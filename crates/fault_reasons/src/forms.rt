//! The forms of lines, one for each word, with the ranges of their fields.

/// How a line with this word is written.
#[derive(Clone, Copy)]
pub struct Form {
    /// The line's first field.
    pub word: &'static str,
    /// The whole line: fields in capitals stand for what the ranges say.
    pub line: &'static str,
    /// The range of each field.
    pub ranges: &'static str,
}

/// The header lines, in the order in which they stand.
pub const HEADER: [Form; 9] = [
    Form {
        word: "vmtrace",
        line: "vmtrace 1",
        ranges: "the version is 1",
    },
    Form {
        word: "space",
        line: "space P",
        ranges: "P 1 to 1048576 pages",
    },
    Form {
        word: "frames",
        line: "frames N",
        ranges: "N 0 to 8192",
    },
    Form {
        word: "lazy",
        line: "lazy L",
        ranges: "L 0 to 1048576 pages",
    },
    Form {
        word: "block",
        line: "block B M",
        ranges: "powers of two, B 8 to 1024, M 1 to B / 2",
    },
    Form {
        word: "unit",
        line: "unit U A",
        ranges: "U 8 to 64 pages, A a power of two from 1 to 64",
    },
    Form {
        word: "group",
        line: "group C O",
        ranges: "C 0 to 64 processors, at most 64 in all groups, O a multiple of A, 0 in the first group",
    },
    Form {
        word: "callers",
        line: "callers N",
        ranges: "N 1 to 16",
    },
    Form {
        word: "counters",
        line: "counters K T",
        ranges: "K 0 to 256, T 1 to 1000000",
    },
];

/// The lines of calls, and those of counts.
pub const CALLS: [Form; 12] = [
    Form {
        word: "vmalloc",
        line: "vmalloc NAME BYTES ALIGN",
        ranges: "BYTES and ALIGN 0 to 9999999999",
    },
    Form {
        word: "vfree",
        line: "vfree TARGET",
        ranges: "the target's line is vmalloc",
    },
    Form {
        word: "map_ram",
        line: "map_ram NAME CPU PAGES",
        ranges: "CPU below the processors, PAGES 0 to 9999999999",
    },
    Form {
        word: "unmap_ram",
        line: "unmap_ram TARGET",
        ranges: "the target's line is map_ram",
    },
    Form {
        word: "unmap_aliases",
        line: "unmap_aliases",
        ranges: "no more fields",
    },
    Form {
        word: "alloc_percpu",
        line: "alloc_percpu NAME BYTES ALIGN",
        ranges: "BYTES and ALIGN 0 to 9999999999",
    },
    Form {
        word: "alloc_atomic",
        line: "alloc_atomic NAME BYTES ALIGN",
        ranges: "BYTES and ALIGN 0 to 9999999999",
    },
    Form {
        word: "free_percpu",
        line: "free_percpu TARGET",
        ranges: "the line is alloc_percpu or alloc_atomic, in the same list",
    },
    Form {
        word: "add",
        line: "add TARGET CPU INDEX AMOUNT",
        ranges: "CPU below the processors, INDEX below BYTES / 4 rounded up, AMOUNT -2147483648 to 2147483647",
    },
    Form {
        word: "sum",
        line: "sum TARGET INDEX",
        ranges: "INDEX below BYTES / 4 rounded up",
    },
    Form {
        word: "balance",
        line: "balance",
        ranges: "no more fields",
    },
    Form {
        word: "count",
        line: "count K CPU AMOUNT",
        ranges: "K below the counters, CPU below the processors, AMOUNT -2147483648 to 2147483647",
    },
];

/// The lines behind the opening's calls.
pub const PARTS: [Form; 3] = [
    Form {
        word: "caller",
        line: "caller N",
        ranges: "N 1 to the number of callers, and above the caller line before it",
    },
    Form {
        word: "order",
        line: "order C C C",
        ranges: "1 to 64 picks, each 1 to the number of callers",
    },
    Form {
        word: "end",
        line: "end",
        ranges: "no more fields",
    },
];

/// The form of the lines with this word among these.
pub fn find(forms: &[Form], word: &[u8]) -> Option<Form> {
    forms
        .iter()
        .find(|form| form.word.as_bytes() == word)
        .copied()
}
