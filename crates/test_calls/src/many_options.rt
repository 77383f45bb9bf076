//! Forty options read over the parser by keys: a table has the names of each option, two functions
//! set what the keys mean, and the loop has four arms. So the time to prove it grows with the
//! options, and no faster.
use lexopt::prelude::Value;
use lexopt::{Arg, Error, OsString, Parser};
use std::alloc::Global;
use test_helpers::parsers::parser_of;

#[derive(Clone, Copy)]
enum Flag {
    Count,
    Heading,
    IgnoreCase,
    KeepGoing,
    FilesWithMatches,
    LineNumber,
    OnlyMatching,
    Pretty,
    Quiet,
    Unrestricted,
    InvertMatch,
    WordRegexp,
    LineRegexp,
    SearchZip,
    All,
    FixedStrings,
    WithFilename,
    NoFilename,
    Json,
    Follow,
}

#[derive(Clone, Copy)]
enum Valued {
    AfterContext,
    BeforeContext,
    Depth,
    Regexp,
    File,
    Glob,
    Jobs,
    MaxCount,
    Replace,
    Sort,
    Type,
    TypeNot,
    Buffer,
    Context,
    Dictionary,
    Encoding,
    Colors,
    Separator,
    MaxColumns,
    Null,
}

#[derive(Clone, Copy)]
enum Key {
    Flag(Flag),
    Valued(Valued),
}

#[derive(Default, Drop)]
struct Settings {
    after_context: Option<OsString>,
    before_context: Option<OsString>,
    count: bool,
    depth: Option<OsString>,
    regexp: Option<OsString>,
    file: Option<OsString>,
    glob: Option<OsString>,
    heading: bool,
    ignore_case: bool,
    jobs: Option<OsString>,
    keep_going: bool,
    files_with_matches: bool,
    max_count: Option<OsString>,
    line_number: bool,
    only_matching: bool,
    pretty: bool,
    quiet: bool,
    replace: Option<OsString>,
    sort: Option<OsString>,
    type_of: Option<OsString>,
    unrestricted: bool,
    invert_match: bool,
    word_regexp: bool,
    line_regexp: bool,
    type_not: Option<OsString>,
    search_zip: bool,
    all: bool,
    buffer: Option<OsString>,
    context: Option<OsString>,
    dictionary: Option<OsString>,
    encoding: Option<OsString>,
    fixed_strings: bool,
    colors: Option<OsString>,
    with_filename: bool,
    no_filename: bool,
    json: bool,
    separator: Option<OsString>,
    follow: bool,
    max_columns: Option<OsString>,
    null: Option<OsString>,
}

// Both names of each option, and its key.
static OPTIONS: [(char, &str, Key); 40] = [
    ('a', "after-context", Key::Valued(Valued::AfterContext)),
    ('b', "before-context", Key::Valued(Valued::BeforeContext)),
    ('c', "count", Key::Flag(Flag::Count)),
    ('d', "depth", Key::Valued(Valued::Depth)),
    ('e', "regexp", Key::Valued(Valued::Regexp)),
    ('f', "file", Key::Valued(Valued::File)),
    ('g', "glob", Key::Valued(Valued::Glob)),
    ('h', "heading", Key::Flag(Flag::Heading)),
    ('i', "ignore-case", Key::Flag(Flag::IgnoreCase)),
    ('j', "jobs", Key::Valued(Valued::Jobs)),
    ('k', "keep-going", Key::Flag(Flag::KeepGoing)),
    ('l', "files-with-matches", Key::Flag(Flag::FilesWithMatches)),
    ('m', "max-count", Key::Valued(Valued::MaxCount)),
    ('n', "line-number", Key::Flag(Flag::LineNumber)),
    ('o', "only-matching", Key::Flag(Flag::OnlyMatching)),
    ('p', "pretty", Key::Flag(Flag::Pretty)),
    ('q', "quiet", Key::Flag(Flag::Quiet)),
    ('r', "replace", Key::Valued(Valued::Replace)),
    ('s', "sort", Key::Valued(Valued::Sort)),
    ('t', "type", Key::Valued(Valued::Type)),
    ('u', "unrestricted", Key::Flag(Flag::Unrestricted)),
    ('v', "invert-match", Key::Flag(Flag::InvertMatch)),
    ('w', "word-regexp", Key::Flag(Flag::WordRegexp)),
    ('x', "line-regexp", Key::Flag(Flag::LineRegexp)),
    ('y', "type-not", Key::Valued(Valued::TypeNot)),
    ('z', "search-zip", Key::Flag(Flag::SearchZip)),
    ('A', "all", Key::Flag(Flag::All)),
    ('B', "buffer", Key::Valued(Valued::Buffer)),
    ('C', "context", Key::Valued(Valued::Context)),
    ('D', "dictionary", Key::Valued(Valued::Dictionary)),
    ('E', "encoding", Key::Valued(Valued::Encoding)),
    ('F', "fixed-strings", Key::Flag(Flag::FixedStrings)),
    ('G', "colors", Key::Valued(Valued::Colors)),
    ('H', "with-filename", Key::Flag(Flag::WithFilename)),
    ('I', "no-filename", Key::Flag(Flag::NoFilename)),
    ('J', "json", Key::Flag(Flag::Json)),
    ('K', "separator", Key::Valued(Valued::Separator)),
    ('L', "follow", Key::Flag(Flag::Follow)),
    ('M', "max-columns", Key::Valued(Valued::MaxColumns)),
    ('N', "null", Key::Valued(Valued::Null)),
];

// The key of this option.
fn key_of(alloc: Global, argument: Arg<'_>) -> Result<Key, Error> {
    for (short, long, key) in &OPTIONS {
        if argument.is_named(*short, long) {
            return Ok(*key);
        }
    }
    Err(argument.unexpected(alloc))
}

fn set_flag(settings: &mut Settings, flag: Flag) {
    match flag {
        Flag::Count => settings.count = true,
        Flag::Heading => settings.heading = true,
        Flag::IgnoreCase => settings.ignore_case = true,
        Flag::KeepGoing => settings.keep_going = true,
        Flag::FilesWithMatches => settings.files_with_matches = true,
        Flag::LineNumber => settings.line_number = true,
        Flag::OnlyMatching => settings.only_matching = true,
        Flag::Pretty => settings.pretty = true,
        Flag::Quiet => settings.quiet = true,
        Flag::Unrestricted => settings.unrestricted = true,
        Flag::InvertMatch => settings.invert_match = true,
        Flag::WordRegexp => settings.word_regexp = true,
        Flag::LineRegexp => settings.line_regexp = true,
        Flag::SearchZip => settings.search_zip = true,
        Flag::All => settings.all = true,
        Flag::FixedStrings => settings.fixed_strings = true,
        Flag::WithFilename => settings.with_filename = true,
        Flag::NoFilename => settings.no_filename = true,
        Flag::Json => settings.json = true,
        Flag::Follow => settings.follow = true,
    }
}

fn set_value(settings: &mut Settings, valued: Valued, word: OsString) {
    let value = match valued {
        Valued::AfterContext => &mut settings.after_context,
        Valued::BeforeContext => &mut settings.before_context,
        Valued::Depth => &mut settings.depth,
        Valued::Regexp => &mut settings.regexp,
        Valued::File => &mut settings.file,
        Valued::Glob => &mut settings.glob,
        Valued::Jobs => &mut settings.jobs,
        Valued::MaxCount => &mut settings.max_count,
        Valued::Replace => &mut settings.replace,
        Valued::Sort => &mut settings.sort,
        Valued::Type => &mut settings.type_of,
        Valued::TypeNot => &mut settings.type_not,
        Valued::Buffer => &mut settings.buffer,
        Valued::Context => &mut settings.context,
        Valued::Dictionary => &mut settings.dictionary,
        Valued::Encoding => &mut settings.encoding,
        Valued::Colors => &mut settings.colors,
        Valued::Separator => &mut settings.separator,
        Valued::MaxColumns => &mut settings.max_columns,
        Valued::Null => &mut settings.null,
    };
    *value = Some(word);
}

fn read_line(
    alloc: Global,
    parser: &mut Parser,
    settings: &mut Settings,
    files: &mut Vec<OsString>,
) -> Result<(), Error> {
    for _ in 0..u64::MAX {
        match parser.next()? {
            Some(Value(file)) => files.push(file)?,
            Some(argument) => match key_of(alloc, argument)? {
                Key::Flag(flag) => set_flag(settings, flag),
                Key::Valued(valued) => set_value(settings, valued, parser.value()?),
            },
            None => break,
        }
    }
    Ok(())
}

// Whether a line means these settings and files, as `Debug` writes them. It drops no settings.
fn reads_as(
    alloc: Global,
    parser: &mut Parser,
    settings: &mut Settings,
    wanted: &str,
) -> Result<bool, Error> {
    let mut files = Vec::new(alloc);
    read_line(alloc, parser, settings, &mut files)?;
    let (after, count) = (&settings.after_context, &settings.max_count);
    Ok(format!(in alloc; "{after:?} {count:?} {} {files:?}", settings.quiet)?.as_str() == wanted)
}

fn is_read(alloc: Global, wanted: &str) -> Result<bool, Error> {
    let mut parser = parser_of(alloc, &[b"-ia3", b"--max-count=5", b"-q", b"x y"])?;
    let mut settings = Settings::default();
    reads_as(alloc, &mut parser, &mut settings, wanted)
}

#[test]
fn forty_options(rt: HostRuntime) {
    let wanted = "Some(\"3\") Some(\"5\") true [\"x y\"]";
    assert!(rt; is_read(rt.alloc(), wanted).expect(&rt, "success"));
}
