//! Path bounds of updates that repeat a statement: the last rule.
use crate::rows::{UPDATE, Wanted, check_text};
use std::alloc::{AllocError, Global};
use std::test::Fail;

/// The end of the update and of the script.
const END: &str = "} report { one = 1; }";

/// An update of one statement after another.
struct Repeated {
    before: &'static str,
    unit: &'static str,
    count: u16,
    after: &'static str,
    wanted: Wanted,
}

const REPEATED: [Repeated; 24] = [
    Repeated {
        before: "",
        unit: "if phase is idle { phase = busy; } ",
        count: 10,
        after: END,
        wanted: Wanted::Paths(1024),
    },
    Repeated {
        before: "",
        unit: "if phase is idle { phase = busy; } ",
        count: 11,
        after: END,
        wanted: Wanted::Branchy(2048),
    },
    Repeated {
        before: "",
        unit: "if x > 0 { phase = busy; } ",
        count: 11,
        after: END,
        wanted: Wanted::Paths(1),
    },
    Repeated {
        before: "",
        unit: "n = 1; ",
        count: 511,
        after: END,
        wanted: Wanted::Paths(1023),
    },
    Repeated {
        before: "",
        unit: "n = 1; ",
        count: 511,
        after: "if n < 3 { } } report { one = 1; }",
        wanted: Wanted::Paths(1024),
    },
    Repeated {
        before: "",
        unit: "n = 1; ",
        count: 512,
        after: END,
        wanted: Wanted::Branchy(1025),
    },
    Repeated {
        before: "n = 1; ",
        unit: "if n < 3 { } ",
        count: 9,
        after: END,
        wanted: Wanted::Paths(514),
    },
    Repeated {
        before: "n = 1; ",
        unit: "if n < 3 { } ",
        count: 10,
        after: END,
        wanted: Wanted::Branchy(1026),
    },
    Repeated {
        before: "",
        unit: "if n < 3 { } ",
        count: 8,
        after: "n = 1; } report { one = 1; }",
        wanted: Wanted::Paths(768),
    },
    Repeated {
        before: "",
        unit: "if n < 3 { } ",
        count: 9,
        after: "n = 1; } report { one = 1; }",
        wanted: Wanted::Branchy(1536),
    },
    Repeated {
        before: "if n == 0",
        unit: " or n == 1",
        count: 8,
        after: " { } } report { one = 1; }",
        wanted: Wanted::Paths(1023),
    },
    Repeated {
        before: "if n == 0",
        unit: " or n == 1",
        count: 9,
        after: " { } } report { one = 1; }",
        wanted: Wanted::Branchy(2047),
    },
    // As many levels and operands as there may be.
    Repeated {
        before: "n = ",
        unit: "(",
        count: 64,
        after: "n)))))))))))))))))))))))))))))))))))))))))))))))))))))))))))))))); } \
            report { one = 1; }",
        wanted: Wanted::Paths(3),
    },
    Repeated {
        before: "n = 1",
        unit: " + 1",
        count: 255,
        after: "; } report { one = 1; }",
        wanted: Wanted::Paths(3),
    },
    // The bound stops at a million.
    Repeated {
        before: "",
        unit: "if n < 3 { } ",
        count: 19,
        after: END,
        wanted: Wanted::Branchy(524_288),
    },
    Repeated {
        before: "",
        unit: "if n < 3 { } ",
        count: 20,
        after: END,
        wanted: Wanted::Branchy(1_000_000),
    },
    Repeated {
        before: "",
        unit: "if n < 3 { } ",
        count: 32,
        after: END,
        wanted: Wanted::Branchy(1_000_000),
    },
    Repeated {
        before: "",
        unit: "if n < 3 { } ",
        count: 64,
        after: END,
        wanted: Wanted::Branchy(1_000_000),
    },
    Repeated {
        before: "",
        unit: "if n < 3 { } ",
        count: 512,
        after: END,
        wanted: Wanted::Branchy(1_000_000),
    },
    Repeated {
        before: "if n == 0",
        unit: " or n == 1",
        count: 127,
        after: " { } } report { one = 1; }",
        wanted: Wanted::Branchy(1_000_000),
    },
    // 131,071 + 131,072 * 131,072 paths. In a product of 32 bits that is 131,071.
    Repeated {
        before: "if n == 0 or n == 0 or n == 0 or n == 0 or n == 0 or n == 0 or n == 0 or n == 0 \
            or n == 0 or n == 0 or n == 0 or n == 0 or n == 0 or n == 0 or n == 0 or n == 0 \
            or n == 0 { } else { ",
        unit: "if n < 3 { } ",
        count: 17,
        after: "} } report { one = 1; }",
        wanted: Wanted::Branchy(1_000_000),
    },
    // Every other rule comes first.
    Repeated {
        before: "",
        unit: "if n < 3 { } ",
        count: 11,
        after: "n = @m; } report { one = 1; }",
        wanted: Wanted::Name,
    },
    Repeated {
        before: "",
        unit: "if n < 3 { } ",
        count: 11,
        after: "} report { one = 1; @one = 2; }",
        wanted: Wanted::Twice,
    },
    Repeated {
        before: "",
        unit: "if n < 3 { } ",
        count: 11,
        after: "} report { one = @h; }",
        wanted: Wanted::Kind,
    },
];

fn text_of(alloc: Global, row: &Repeated) -> Result<String, AllocError> {
    let mut text = String::from_str(alloc, UPDATE.before)?;
    text.push_str(row.before)?;
    for _ in 0..row.count {
        text.push_str(row.unit)?;
    }
    text.push_str(row.after)?;
    Ok(text)
}

#[test]
fn paths_are_at_most_1024(rt: HostRuntime) -> Result<(), Fail> {
    for row in &REPEATED {
        let text = text_of(rt.alloc(), row)?;
        check_text(&rt, rt.alloc(), &text, row.wanted)?;
    }
    Ok(())
}
