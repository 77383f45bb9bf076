//! Three hundred options in fifteen groups, each found by its name.
use lexopt_options::{
    Declaration, Declared, Group, Kind, Line, Names, Options, Parsed, declare, declare_group,
};
use lexopt_runtime_options::Combined;
use std::alloc::{AllocError, Global};
use test_helpers::parsers::words_of;

// Twenty options that do this to the parts of an entry. Their keys are counted from `$first`.
macro_rules! group {
    ($verb:literal, $first:literal) => {
        declare_group! {
            options: [
                flag($first, Names::Long(concat!($verb, "-date")), ""),
                value($first + 1, Names::Long(concat!($verb, "-device")), "DEVICE", ""),
                flag($first + 2, Names::Long(concat!($verb, "-file")), ""),
                value($first + 3, Names::Long(concat!($verb, "-group")), "GROUP", ""),
                flag($first + 4, Names::Long(concat!($verb, "-host")), ""),
                value($first + 5, Names::Long(concat!($verb, "-line")), "LINE", ""),
                flag($first + 6, Names::Long(concat!($verb, "-link")), ""),
                value($first + 7, Names::Long(concat!($verb, "-mode")), "MODE", ""),
                flag($first + 8, Names::Long(concat!($verb, "-name")), ""),
                value($first + 9, Names::Long(concat!($verb, "-owner")), "OWNER", ""),
                flag($first + 10, Names::Long(concat!($verb, "-page")), ""),
                value($first + 11, Names::Long(concat!($verb, "-path")), "PATH", ""),
                flag($first + 12, Names::Long(concat!($verb, "-port")), ""),
                value($first + 13, Names::Long(concat!($verb, "-root")), "ROOT", ""),
                flag($first + 14, Names::Long(concat!($verb, "-size")), ""),
                value($first + 15, Names::Long(concat!($verb, "-table")), "TABLE", ""),
                flag($first + 16, Names::Long(concat!($verb, "-text")), ""),
                value($first + 17, Names::Long(concat!($verb, "-time")), "TIME", ""),
                flag($first + 18, Names::Long(concat!($verb, "-type")), ""),
                value($first + 19, Names::Long(concat!($verb, "-user")), "USER", ""),
            ],
        }
    };
}

static ADD: Group<'static, u16, u16> = group!("add", 0);

static ALLOW: Group<'static, u16, u16> = group!("allow", 20);

static COPY: Group<'static, u16, u16> = group!("copy", 40);

static COUNT: Group<'static, u16, u16> = group!("count", 60);

static HIDE: Group<'static, u16, u16> = group!("hide", 80);

static IGNORE: Group<'static, u16, u16> = group!("ignore", 100);

static KEEP: Group<'static, u16, u16> = group!("keep", 120);

static LIMIT: Group<'static, u16, u16> = group!("limit", 140);

static LIST: Group<'static, u16, u16> = group!("list", 160);

static MERGE: Group<'static, u16, u16> = group!("merge", 180);

static PRINT: Group<'static, u16, u16> = group!("print", 200);

static QUOTE: Group<'static, u16, u16> = group!("quote", 220);

static READ: Group<'static, u16, u16> = group!("read", 240);

static SKIP: Group<'static, u16, u16> = group!("skip", 260);

static SORT: Group<'static, u16, u16> = group!("sort", 280);

static DECLARATION: Declaration<'static, u16, u16> = declare! {
    program: "large",
    options: [help(Names::Both('h', "help"))],
};

// Whether a line has the option with this key, and nothing else.
fn has_option(line: &Result<Line<'_, u16, u16>, AllocError>, key: u16) -> Result<bool, AllocError> {
    match line {
        Ok(Line::Parsed(parsed)) => Ok(matches!(
            parsed.as_slice(),
            [Parsed::Flag(own) | Parsed::Value(own, _)] if *own == key
        )),
        Ok(_) => Ok(false),
        Err(_) => Err(AllocError),
    }
}

// Whether this option is read from its long name, with a value if it has one.
fn is_found(
    alloc: Global,
    options: &Options<'_, u16, u16>,
    option: &Declared<'_, u16, u16>,
) -> Result<bool, AllocError> {
    let name = option.names.long().unwrap_or("");
    let (key, value) = match option.kind {
        Kind::Flag(key) => (key, ""),
        Kind::Value(key, _) => (key, "=x"),
        _ => return Ok(false),
    };
    let line = format!(in alloc; "--{name}{value}")?;
    let words = words_of(alloc, line.as_bytes())?;
    has_option(&options.read(alloc, words), key)
}

// How many of these options are found by their long names.
fn count_found(alloc: Global, options: &Options<'_, u16, u16>) -> Result<usize, AllocError> {
    let mut count = 0usize;
    for option in options.options() {
        if is_found(alloc, options, option)? {
            count = count.wrapping_add(1);
        }
    }
    Ok(count)
}

// The same for the options of all groups.
fn found(alloc: Global) -> Result<usize, AllocError> {
    let groups = [
        ADD, ALLOW, COPY, COUNT, HIDE, IGNORE, KEEP, LIMIT, LIST, MERGE, PRINT, QUOTE, READ, SKIP,
        SORT,
    ];
    let combined = Combined::new(alloc, &DECLARATION, &groups)?;
    count_found(alloc, &Options::new(&combined.declaration()))
}

#[test]
fn options_in_groups(rt: HostRuntime) {
    assert_eq!(rt; found(rt.alloc()).expect(&rt, "memory"), 300);
}
