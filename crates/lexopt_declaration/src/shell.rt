//! The scripts by which shells complete the lines of a program, and what shells ask the program.
ghost use Rattle.std.specs.Prelude.{◌≡◌, ◌↔◌, ◌∷◌, [], IfOk, Some, encode_utf8, string_bytes};
ghost use Rattle.std.specs.Fmt.{WritesOnOk};
ghost use Rattle.lexopt_declaration.specs.Scripts.{request_text, script_character};
ghost use Rattle.lexopt_declaration.specs.Scripts.{variable_byte, variable_name, with_names};

use std::alloc::{AllocError, Global};
use std::fmt;

/// A shell that completes lines by a script.
#[derive(Clone, Copy, PartialEq, Eq, Debug)]
pub enum Shell {
    /// GNU bash.
    Bash,
    /// zsh.
    Zsh,
    /// fish.
    Fish,
}

/// What a shell asks a program for, by the value of an environment variable, as for Python's click.
#[derive(Clone, Copy, PartialEq, Eq, Debug)]
pub enum ShellRequest {
    /// The script of this shell: the value `bash_source` and the like.
    Script(Shell),
    /// What can come where a word is typed in this shell: the value `bash_complete` and the like.
    Completion(Shell),
}

impl ShellRequest {
    /// Returns the request by this value of the variable; `None` if the value is not known.
    ///
    /// # Examples
    ///
    /// ```rust
    /// let request = ShellRequest::from_value(b"zsh_source");
    /// // Some(ShellRequest::Script(Shell::Zsh))
    /// ```
    pub fn from_value(value: &[u8]) -> Option<ShellRequest>
        ensures { (request : ShellRequest) → (result ≡ Some request)
            ↔ (value.now ≡ request_text request) }
    {
        if value == b"bash_source".as_slice() {
            Some(ShellRequest::Script(Shell::Bash))
        } else if value == b"zsh_source".as_slice() {
            Some(ShellRequest::Script(Shell::Zsh))
        } else if value == b"fish_source".as_slice() {
            Some(ShellRequest::Script(Shell::Fish))
        } else if value == b"bash_complete".as_slice() {
            Some(ShellRequest::Completion(Shell::Bash))
        } else if value == b"zsh_complete".as_slice() {
            Some(ShellRequest::Completion(Shell::Zsh))
        } else if value == b"fish_complete".as_slice() {
            Some(ShellRequest::Completion(Shell::Fish))
        } else {
            None
        }
    }
}

// A letter of ASCII in upper case, a digit of ASCII as it is, `_` for any other byte.
fn variable_character(byte: u8) -> char
    ensures { encode_utf8 result ≡ variable_byte byte ∷ [] }
{
    if byte.is_ascii_alphanumeric() {
        char::from(byte.to_ascii_uppercase())
    } else {
        '_'
    }
}

/// Returns the name of the environment variable by which shells ask the program of this name.
///
/// It has the form that Python's click uses: `_`, the name of the program, and `_COMPLETE`. Letters
/// of ASCII are in upper case, digits of ASCII are as they are, and each other byte is `_`.
///
/// # Errors
///
/// Returns `AllocError` if an allocation fails.
///
/// # Examples
///
/// ```rust
/// let name = variable(alloc, "example-archive")?; // _EXAMPLE_ARCHIVE_COMPLETE
/// ```
pub fn variable(alloc: Global, program: &str) -> Result<String, AllocError>
    ensures { IfOk result (λ name. string_bytes name ≡ variable_name program.now) }
{
    let mut name = String::from_str(alloc, "_")?;
    for byte in program.as_bytes() {
        name.push(variable_character(*byte))?;
    }
    name.push_str("_COMPLETE")?;
    Ok(name)
}

/// A script by which a shell completes the lines of a program. `Display` writes it, without a line
/// feed at the end of its last line.
///
/// A shell that has read the script calls the program with the words before the one that is typed,
/// and what was typed of that word. The environment variable [`Script::variable`] then has the
/// value `bash_complete`, `zsh_complete` or `fish_complete`. Redirections are not among the words.
/// The program then prints the lines of `Options::completion_text` of `lexopt_options`, which the
/// script reads:
///
/// - Of a line that begins with a dash or `+`, it offers the text up to a tab, without the `+`. zsh
///   and fish show what comes after the tab.
/// - For the line `files` it offers the names of files, and for the line `directories` those of
///   directories. If a tab and a text come after that, the names come after this text in the word.
/// - For the line `command`, a tab and a number, it completes that many words before the one that is
///   typed, and this, as a command line of their own. bash does so by the package bash-completion;
///   without it, bash offers the names of files.
///
/// If the program fails, the shell offers what it offers without the script, such as the names of
/// files.
///
/// # Examples
///
/// ```rust
/// let name = variable(alloc, "pack")?;
/// let script = Script {
///     shell: Shell::Fish,
///     program: "pack",
///     variable: name.as_str(),
/// };
/// println!(rt; "{script}")?;
/// ```
#[derive(Clone, Copy, PartialEq, Eq, Debug)]
pub struct Script<'a> {
    /// The shell that reads the script.
    pub shell: Shell,
    /// The name of the program, which is the command that the script completes. It should have only
    /// ASCII letters, digits, `-`, `_`, `.` and `+`, since the script has it unquoted and in names
    /// of functions. Nothing checks that.
    pub program: &'a str,
    /// The environment variable by which the shell asks: what [`variable`] returns for the program.
    pub variable: &'a str,
}

// ---- the scripts, where `§` stands for the name of the program, and `¶` for that of the variable

const BASH: &str = r#"# Source this. It needs bash 4.4.

# Splits a line into `words`, as the program would get them. The last word is in `word` instead, and
# in `raw` as it was typed. `starts` has where each begins in the line. `redirected` is set if the
# last is the target of a redirection. `open` has the end of each quote and substitution that is
# open, after a blank: the innermost is last.
_split_§() {
    local line=$1 rest=$1 before piece value
    local operator='^(&>>?|<<<|<<-?|<[>&]?|>[>&|]?)' number='^([0-9]+|\{[A-Za-z_0-9]+\})$'
    local escaped="^..(([^'\\]|\\\\.)*)('?)"
    words=() starts=() word='' raw='' open=' ' redirected=''

    while [[ $rest ]]; do
        # One character, or several plain ones at once.
        before=$open piece=${rest%%[![:alnum:]_./=-]*}
        piece=${piece:-${rest:0:1}}
        if [[ $open == ' ' && $piece == [$' \t\n'] ]]; then
            [[ $raw && -z $redirected ]] &&
                words+=("$word") starts+=($((${#line} - ${#rest} - ${#raw})))
            [[ $raw ]] && redirected=''
            raw='' word=''
        elif [[ $open == ' ' && $rest != [\<\>]\(* && $rest =~ $operator ]]; then
            piece=${BASH_REMATCH[0]}
            # The number of a file just before it is not a word.
            [[ $piece != \&* && $raw =~ $number ]] && raw=''
            [[ $raw && -z $redirected ]] &&
                words+=("$word") starts+=($((${#line} - ${#rest} - ${#raw})))
            raw='' word='' redirected=1
        else
            value=$piece
            case ${open: -1}$rest in
                \'\'* | \"\"*) open=${open%?} value='' ;;
                \'*) ;;
                \)\)* | \}\}* | \`\`*) open=${open%?} ;;
                ?\$\(* | ' '[\<\>]\(*) piece=${rest:0:2} open+=\) ;;
                ?\$\{*) piece=${rest:0:2} open+=\} ;;
                ?\`*) open+=\` ;;
                # In double quotes most backslashes stay.
                \"\\[!\$\`\"\\$'\n']*) ;;
                ?\\*)
                    piece=${rest:0:2} value=${piece:1}
                    [[ $value == $'\n' ]] && value=''
                    ;;
                ?\"*) open+=\" value='' ;;
                \"*) ;;
                ?\$\"*) piece=${rest:0:2} open+=\" value='' ;;
                ?\'*) open+=\' value='' ;;
                ?\$\'*)
                    [[ $rest =~ $escaped ]]
                    piece=${BASH_REMATCH[0]} value=${BASH_REMATCH[1]@E}
                    [[ ${BASH_REMATCH[3]} ]] || open+=\'
                    ;;
                \)\(*) open+=\) ;;
            esac
            # In a substitution all stays as it was typed.
            [[ $before$open == *[\)\}\`]* ]] && value=$piece
            word+=$value raw+=$piece
        fi
        rest=${rest:${#piece}}
    done
    starts+=($((${#line} - ${#raw})))
}

_complete_§() {
    local words starts word raw open redirected program answers answer start kept typed name quoted
    local begins index line

    COMPREPLY=()
    _split_§ "${COMP_LINE:0:COMP_POINT}"
    program=${words[0]}
    [[ $program == \~/* ]] && program=$HOME${program:1}
    # An alias is not a command: then ask the program itself.
    type -P -- "$program" >/dev/null || program=§
    if [[ $redirected ]] || ! answers=$(
        ¶=bash_complete "$program" "${words[@]:1}" "$word" 2>/dev/null </dev/null
    ); then
        # What bash offers without this script.
        compopt -o bashdefault -o default
        return
    fi

    # Bash replaces only $2, which begins after the last `=`, `:`, `@` or open quote. What comes
    # before it in the word is kept.
    typed=$word begins=("${starts[@]}")
    _split_§ "${raw%"$2"}"
    kept=$word

    while IFS=$'\t' read -r answer start; do
        case $answer in
            files | directories)
                # Bash itself completes names best, if they are all of $2 and nothing else is
                # offered. But it may execute a command substitution.
                if [[ $start == "$kept" && $answers != *$'\n'* && $typed != *[\`\(]* ]]; then
                    [[ $answer == files ]] && compopt -o default || compopt -o dirnames
                    return
                fi
                compopt -o filenames
                while IFS= read -r -d '' name; do
                    COMPREPLY+=("${name#"$kept"}")
                done < <(
                    shopt -s dotglob nullglob
                    shopt -u failglob
                    set +o noglob
                    for name in "${typed#"$start"}"*; do
                        if [[ -d $name ]]; then
                            name+=/
                        elif [[ $answer == directories ]]; then
                            continue
                        fi
                        printf '%s\0' "$start$name"
                    done
                )
                [[ ${#COMPREPLY[@]} == 1 && ${COMPREPLY[0]} == */ ]] && compopt -o nospace
                ;;
            command)
                # This many words and the one that is typed are a command line of their own. The
                # package bash-completion completes it.
                if ! declare -F _command_offset >/dev/null; then
                    compopt -o bashdefault -o default
                    return
                fi
                index=0 line=$COMP_LINE
                while ((index < COMP_CWORD)); do
                    line=${line#*"${COMP_WORDS[index]}"}
                    ((${#COMP_LINE} - ${#line} > begins[${#begins[@]} - 1 - start])) && break
                    ((index += 1))
                done
                _command_offset "$index"
                return
                ;;
            -* | +*)
                answer=${answer#+}
                COMPREPLY+=("${answer#"$kept"}")
                # Bash quotes a word only if it takes the word for a name.
                printf -v quoted %q "$answer"
                [[ $quoted == "$answer" ]] || compopt -o filenames
                ;;
        esac
    done <<<"$answers"
}
complete -F _complete_§ §"#;

const ZSH: &str = r#"#compdef §
# Source this after `compinit`, or put it into a folder of `fpath` as the file `_§`.
_§() {
    # What is typed of the word, and the end of the quote that is open, if one is.
    local typed=$QIPREFIX$PREFIX${compstate[quote]#\$}
    local program answers word text start ret=1
    local -a options values offered names

    typed=${(Q)typed}
    program=${(Q)words[1]}
    program=${program/#\~\//$HOME/}
    # An alias is not a command: then ask the program itself.
    whence -p -- "$program" >/dev/null || program=§
    answers=$(¶=zsh_complete "$program" "${(@Q)words[2,CURRENT-1]}" "$typed" \
        2>/dev/null </dev/null) || {
        # What zsh offers without this script.
        _default
        return
    }

    while IFS=$'\t' read -r word text; do
        case $word in
            files) names=(_files) start=$text ;;
            directories) names=(_path_files -/) start=$text ;;
            command)
                # This many words and the one that is typed are a command line of their own.
                shift $((CURRENT - text - 1)) words
                ((CURRENT = text + 1))
                _normal
                return
                ;;
            -* | +*)
                offered+=("${(q)word#+}")
                # `_describe` takes what comes after a colon for the help.
                text=${${word#+}//(#m)[\\:]/\\$MATCH}${text:+:$text}
                [[ $word == -* ]] && options+=("$text") || values+=("$text")
                ;;
        esac
    done <<<"$answers"

    (( $#options )) && _describe -o option options && ret=0
    (( $#values )) && _describe value values && ret=0
    # The names. `_files` may execute a command substitution, so there are none after one.
    if (( $#names )) && [[ $typed != *(\`|\$\()* ]]; then
        [[ $start ]] && compset -P "${(q)start}"
        # A name that is a value too is not offered twice.
        $names -F offered && ret=0
    fi
    return ret
}
if [[ $funcstack[1] == _§ ]]; then
    _§ "$@"
else
    compdef _§ §
fi"#;

const FISH: &str =
    r#"# Source this, or put it into a folder of `fish_complete_path` as the file `§.fish`.
# It needs fish 3.4.
function __complete_§
    set -l line "$(commandline --current-process --cut-at-cursor)"
    set -l token "$(commandline --current-token --cut-at-cursor)"

    # Patterns: what is quoted, what is in parentheses, and a redirection with its target.
    set -l quoted '\'(?:\\\\.|[^\\\\\'])*\'|"(?:\\\\.|[^\\\\"])*"|\\\\.'
    set -l nested "(?<nested>\((?:$quoted|[^()'\"\\\\]|(?&nested))*\)?)"
    set -l operator '(?:&|(?<!\S)\d+)?(?:>>?|<)[?&]?'
    set -l redirection "$operator\s*(?:$quoted|$nested|[^\s<>&|;()'\"\\\\])+"

    # Close the quote that is open, if one is, or double the last backslash. An empty word needs
    # quotes too.
    set -l unquoted "$(string replace --all --regex "(?s)$quoted" '' -- "$token")"
    set -l end (string match --regex '[\'"\\\\]' -- "$unquoted"); or set end "''"
    # Leave out each redirection that is not in quotes or in parentheses.
    string replace --all --regex "(?s)(?:$quoted|(?&nested))(*SKIP)(*FAIL)|$redirection" ' ' \
        -- "$line$end" | string collect | read --null --tokenize --list --local words

    set -l program (string replace --regex '^~/' "$HOME/" -- $words[1])
    type --query -- $program; or set program §
    # Where the program fails, fish offers files, as it does without this script.
    set -l answers files
    if type --query -- $program
        set answers (¶=fish_complete $program $words[2..] 2>/dev/null </dev/null)
        or set answers files
    end

    for answer in $answers
        set -l parts (string split --max 1 \t -- $answer)
        switch $parts[1]
            case files directories
                # The name begins after this text.
                set -l start "$parts[2]"
                set -l typed "$token"
                test -n "$start"; and set typed "$(string replace -- "$start" '' "$token")"
                set -l names (complete --do-complete "'' $typed")
                # After `=` and `:` fish offers all files as well.
                if string match --quiet --regex '[=:]' -- "$typed"
                    set names (for name in $names
                        test -e "$name"; and string join '' -- $name
                    end)
                end
                test $parts[1] = directories; and set names (string match '*/' -- $names)
                string join \n -- $start$names
            case command
                # This many words and the one that is typed are a command line of their own.
                set -l first (math (count $words) - $parts[2])
                set -l before
                test $first -lt (count $words); and set before (string escape -- $words[$first..-2])
                complete --do-complete "$before $token"
            case '-*' '+*'
                string replace --regex '^[+]' '' -- $answer
        end
    end
end
complete --command § --no-files --arguments '(__complete_§)'"#;

// Writes a character of a script, or the name for which it stands.
fn write_character<W: fmt::Write>(
    character: char,
    program: &str,
    variable: &str,
    f: &mut fmt::Formatter<W>,
) -> fmt::Result
    ensures { WritesOnOk W.write_str_gives f.old result
        (script_character program.now variable.now character) f.new }
{
    match character {
        '§' => f.write_str(program),
        '¶' => f.write_str(variable),
        _ => f.write_char(character),
    }
}

// Writes a script with these names.
fn write_script<W: fmt::Write>(
    text: &str,
    program: &str,
    variable: &str,
    f: &mut fmt::Formatter<W>,
) -> fmt::Result
    ensures { WritesOnOk W.write_str_gives f.old result
        (with_names program.now variable.now text.now) f.new }
{
    for character in text.chars() {
        write_character(character, program, variable, f)?;
    }
    Ok(())
}

impl fmt::Display for Script<'_> {
    ghost use Rattle.std.specs.Prelude.{Some};
    ghost use Rattle.lexopt_declaration.specs.Scripts.{script_text};

    ghost output = { λ script. Some (script_text script) };

    fn fmt<W: fmt::Write>(&self, f: &mut fmt::Formatter<W>) -> fmt::Result {
        match self.shell {
            Shell::Bash => write_script(BASH, self.program, self.variable, f),
            Shell::Zsh => write_script(ZSH, self.program, self.variable, f),
            Shell::Fish => write_script(FISH, self.program, self.variable, f),
        }
    }
}
