//! A helper and handlers that count their calls. A row has keys typed into an empty line. After
//! ` = ` it has the number of calls of the hinter, the validator, the completer and the highlighter
//! of characters, or how often each handler was called.

ghost use Rattle.std.specs.Prelude.{◌≡◌, [], None, false, refl};
ghost use Rattle.line_help.specs.Completion.{nothing_offered};
ghost use Rattle.line_keys.specs.Replies.{gives, gives_at_once};

use crate::calls::CallList;
use crate::desk::Stage;
use line_buffer::{ChangeListener, LineBuffer, RepeatCount};
use line_config::{CompletionType, Config, HookFault, ReadlineError};
use line_editor::run;
use line_help::{
    Completer, Context, Helper, HelperParts, Highlighter, Hinter, History, Mark, Part, Span,
    ValidationContext, ValidationResult, Validator, update_line,
};
use line_keys::{Cmd, CmdKind, Decides, Event, EventContext, EventMap};
use line_record::KillRing;
use stand_ins::readers::KeyList;
use stand_ins::rows::{Player, done, raised, rows_hold};
use stand_ins::typing::{Input, event, typed};
use std::alloc::{AllocError, Global};
use std::borrow::CowStr;
use std::cell::Cell;
use std::test::Fail;

/// Offers nothing, has no hints, marks nothing, and every text is valid; each call is counted.
#[derive(Clone, Copy, Drop)]
struct Counting<'c> {
    hints: &'c Cell<u32>,
    verdicts: &'c Cell<u32>,
    completions: &'c Cell<u32>,
    marks: &'c Cell<u32>,
}

/// How often each hook and each handler was called, and the sum of the counts that the handlers
/// were shown.
#[derive(Drop)]
struct Tally {
    hints: Cell<u32>,
    verdicts: Cell<u32>,
    completions: Cell<u32>,
    marks: Cell<u32>,
    own: Cell<u32>,
    followed: Cell<u32>,
    any: Cell<u32>,
    shown: Cell<u32>,
}

impl Tally {
    fn new() -> Self {
        Tally {
            hints: Cell::new(0),
            verdicts: Cell::new(0),
            completions: Cell::new(0),
            marks: Cell::new(0),
            own: Cell::new(0),
            followed: Cell::new(0),
            any: Cell::new(0),
            shown: Cell::new(0),
        }
    }

    fn helper(&self) -> Counting<'_> {
        Counting {
            hints: &self.hints,
            verdicts: &self.verdicts,
            completions: &self.completions,
            marks: &self.marks,
        }
    }

    /// Binds keys, or any key without keys, to a handler that counts its calls here.
    fn bind<'c>(
        &'c self,
        alloc: Global,
        bindings: &mut EventMap<Counted<'c>>,
        keys: &str,
        calls: &'c Cell<u32>,
    ) -> Result<(), ReadlineError> {
        let event = event(alloc, keys)?;
        let handler = Counted {
            answers: !keys.is_empty(),
            calls,
            shown: &self.shown,
        };
        done(bindings.bind_sequence(event, handler))
    }

    /// Binds Ctrl-O, F2 and then `a`, and any key.
    fn bind_all<'c>(
        &'c self,
        alloc: Global,
        bindings: &mut EventMap<Counted<'c>>,
    ) -> Result<(), ReadlineError> {
        self.bind(alloc, bindings, "C-O", &self.own)?;
        self.bind(alloc, bindings, "F2 a", &self.followed)?;
        self.bind(alloc, bindings, "", &self.any)
    }

    fn hooks_told(&self, alloc: Global) -> Result<String, AllocError> {
        let (hints, verdicts) = (self.hints.get(), self.verdicts.get());
        let (completions, marks) = (self.completions.get(), self.marks.get());
        format!(in alloc; "{hints} {verdicts} {completions} {marks}")
    }

    fn handlers_told(&self, alloc: Global) -> Result<String, AllocError> {
        let (own, followed, any) = (self.own.get(), self.followed.get(), self.any.get());
        format!(in alloc; "{own} {followed} {any}, {}", self.shown.get())
    }

    fn told(&self, alloc: Global, counts: Counts) -> Result<String, AllocError> {
        match counts {
            Counts::Handlers => self.handlers_told(alloc),
            _ => self.hooks_told(alloc),
        }
    }
}

fn count(times: &Cell<u32>) {
    times.set(times.get().saturating_add(1));
}

impl Completer for Counting<'_> {
    type Candidate = String;

    ghost completion_of = { λ self line pos entries place. gives_at_once nothing_offered };

    ghost update_of = { λ self line start elected. gives (tt {0}) };

    fn complete<Hi: History>(
        &self,
        alloc: Global,
        _line: &str,
        _pos: usize,
        _ctx: &Context<'_, Hi>,
    ) -> Result<(usize, Vec<String>), HookFault> {
        count(self.completions);
        Ok((0, Vec::new(alloc)))
    }

    fn update<L: ChangeListener>(
        &self,
        alloc: Global,
        line: &mut LineBuffer,
        start: usize,
        elected: &str,
        cl: &mut L,
    ) -> Result<(), HookFault> {
        update_line(alloc, line, start, elected, cl)
    }
}

impl Hinter for Counting<'_> {
    type Hint = String;

    ghost hint_of = { λ self line pos entries place. gives_at_once None };

    fn hint<Hi: History>(
        &self,
        _alloc: Global,
        _line: &str,
        _pos: usize,
        _ctx: &Context<'_, Hi>,
    ) -> Result<Option<String>, HookFault> {
        count(self.hints);
        Ok(None)
    }
}

impl Validator for Counting<'_> {
    ghost use Rattle.line_help.specs.declared.helpers.validate.ValidationResult.TheVariants.{Valid};

    ghost verdict_of = { λ self text. gives_at_once (Valid None) };

    ghost while_typing = { λ self. false };

    fn validate(
        &self,
        _alloc: Global,
        _ctx: &ValidationContext<'_>,
    ) -> Result<ValidationResult, HookFault> {
        count(self.verdicts);
        Ok(ValidationResult::Valid(None))
    }

    fn validate_while_typing(&self) -> bool {
        false
    }
}

impl Highlighter for Counting<'_> {
    ghost marks = { λ self. record {
      marked = λ line pos kind. false;
      paints = λ part text from. [];
    } };

    ghost kept = { λ before after. after ≡ before };

    ghost shown_as = { λ self part text. gives_at_once text };

    ghost shown_after = { λ self line pos kind part text. gives_at_once text };

    fn highlight<'l>(
        &self,
        alloc: Global,
        line: &'l str,
        pos: usize,
    ) -> Result<CowStr<'l>, HookFault> {
        ().highlight(alloc, line, pos)
    }

    fn highlight_prompt<'p>(
        &self,
        alloc: Global,
        prompt: &'p str,
        default: bool,
    ) -> Result<CowStr<'p>, HookFault> {
        ().highlight_prompt(alloc, prompt, default)
    }

    fn highlight_hint<'h>(&self, alloc: Global, hint: &'h str) -> Result<CowStr<'h>, HookFault> {
        ().highlight_hint(alloc, hint)
    }

    fn highlight_candidate<'c>(
        &self,
        alloc: Global,
        candidate: &'c str,
        completion: CompletionType,
    ) -> Result<CowStr<'c>, HookFault> {
        ().highlight_candidate(alloc, candidate, completion)
    }

    fn highlight_char(&mut self, _line: &str, _pos: usize, _kind: CmdKind) -> bool {
        count(self.marks);
        false
    }

    fn next_span(&self, _part: Part, _text: &str, _from: Mark) -> Option<(Span, Mark)> {
        None
    }
}

impl Helper for Counting<'_> {
    ghost same_completions = { λ before after kept. refl };

    ghost same_updates = { λ before after kept. refl };

    ghost same_hints = { λ before after kept. refl };

    ghost same_verdicts = { λ before after kept. refl };
}

/// A handler that does nothing, or has no answer. It counts its calls, and adds up the counts that
/// it is shown.
#[derive(Drop)]
struct Counted<'c> {
    answers: bool,
    calls: &'c Cell<u32>,
    shown: &'c Cell<u32>,
}

impl Decides for Counted<'_> {
    ghost use Rattle.std.specs.Prelude.{Some, if◌then◌else◌};
    ghost use Rattle.line_keys.specs.declared.command.Cmd.TheVariants.{Noop};

    ghost decides = { λ self s. gives_at_once (if self.answers then Some Noop else None) };

    fn decide(
        &self,
        _alloc: Global,
        _evt: &Event,
        n: RepeatCount,
        _positive: bool,
        _ctx: &EventContext<'_>,
    ) -> Result<Option<Cmd>, ReadlineError> {
        count(self.calls);
        let shown = self.shown.get().saturating_add(u32::from(n));
        self.shown.set(shown);
        Ok(if self.answers { Some(Cmd::Noop) } else { None })
    }
}

/// Whose calls a table has: those of a helper, of one that has this helper for each of its parts,
/// or of handlers.
#[derive(Clone, Copy)]
enum Counts {
    Hooks,
    Parts,
    Handlers,
}

/// Lines typed with a helper and handlers that count.
#[derive(Drop)]
struct Counter {
    stage: Stage,
    counts: Counts,
}

// A line from its first drawing to its end.
fn run_with<H: Helper + Drop, D: Decides>(
    alloc: Global,
    stage: &Stage,
    helper: H,
    bindings: &EventMap<D>,
    ring: &mut KillRing,
    keys: &Input,
) {
    let config = Config::builder().edit_mode(stage.mode).build();
    let mut reader = KeyList::new(&keys.typed, false, keys.after);
    let mut query = String::new(alloc);
    run(
        alloc,
        &mut reader,
        CallList::new(alloc, stage.columns, stage.colours, stage.tab),
        "> ",
        Some(helper),
        &stage.history,
        &config,
        bindings,
        ring,
        &mut query,
    );
}

// The same with a helper that has this one for each of its parts.
fn run_with_parts<H: Helper + Copy + Drop, D: Decides>(
    alloc: Global,
    stage: &Stage,
    part: H,
    bindings: &EventMap<D>,
    ring: &mut KillRing,
    keys: &Input,
) {
    let parts = HelperParts {
        completer: part,
        hinter: part,
        highlighter: part,
        validator: part,
    };
    run_with(alloc, stage, parts, bindings, ring, keys);
}

impl Counter {
    fn run_over<D: Decides>(
        &self,
        alloc: Global,
        helper: Counting<'_>,
        bindings: &EventMap<D>,
        ring: &mut KillRing,
        keys: &Input,
    ) {
        match self.counts {
            Counts::Parts => run_with_parts(alloc, &self.stage, helper, bindings, ring, keys),
            _ => run_with(alloc, &self.stage, helper, bindings, ring, keys),
        }
    }

    fn typed_at<'c>(
        &self,
        alloc: Global,
        bindings: &mut EventMap<Counted<'c>>,
        tally: &'c Tally,
        row: &str,
    ) -> Result<(), Fail> {
        tally.bind_all(alloc, bindings)?;
        let keys = typed(alloc, row)?;
        let mut ring = KillRing::new(alloc, 60)?;
        self.run_over(alloc, tally.helper(), bindings, &mut ring, &keys);
        Ok(())
    }

    /// Types a row's keys, whose hooks and handlers count here.
    fn types(&self, alloc: Global, tally: &Tally, row: &str) -> Result<(), Fail> {
        match &mut EventMap::new(alloc) {
            Ok(bindings) => self.typed_at(alloc, bindings, tally, row),
            Err(why) => Err(Fail::from(*why)),
        }
    }
}

impl Player for Counter {
    fn play(&mut self, alloc: Global, row: &str) -> Result<String, Fail> {
        if self.stage.sets(alloc, row)? {
            return Ok(String::new(alloc));
        }
        let tally = Tally::new();
        match self.types(alloc, &tally, row) {
            Ok(()) => raised(tally.told(alloc, self.counts)),
            Err(why) => Err(why),
        }
    }
}

// A move calls none, but with colours the highlighter; a redrawn line calls the hinter once for
// each drawing, and an accepted one only the validator. The first drawing is one.
const HOOKS: &str = "
    history: line0,line1 = nothing
    C-D = 1 0 0 0
    a b = 3 0 0 0
    a b Left C-A Right C-E Right = 3 0 0 0
    PasteStart text:ab␊c Up = 2 0 0 0
    a b Left x = 4 0 0 0
    a b Backspace = 4 0 0 0
    a b C-K = 3 0 0 0
    a b C-L = 4 0 0 0
    a b C-P = 4 0 0 0
    a b C-_ = 4 0 0 0
    a b Tab = 3 0 1 0
    a b C-C = 3 0 0 0
    a b C-D = 3 0 0 0

    Enter = 1 1 0 0
    a b Left Right Enter = 3 1 0 0
    a A-2 x Enter = 5 1 0 0
    a Tab C-G Enter = 2 1 1 0
    Up Down Enter = 3 1 0 0

    colours: yes = nothing
    a b = 3 0 0 3
    a b Left = 3 0 0 4
    a b C-L = 4 0 0 4
    a b Tab = 3 0 1 3
    Enter = 1 1 0 2
    a Left Enter = 2 1 0 5
";

// The calls of each handler, and the sum of the counts that they are shown. The first key of the
// sequence is shown to the handler of any key too.
const HANDLED: &str = "
    C-O = 1 0 0, 1
    C-O C-O = 2 0 0, 2
    a = 0 0 1, 1
    a b Left = 0 0 3, 3
    F2 a = 0 1 1, 2
    F2 b = 0 0 1, 1
    A-3 C-O = 1 0 0, 3
    A-3 F2 a = 0 1 1, 6
    mode: Vi = nothing
    C-O = 1 0 0, 0
    a Esc 2 C-O = 1 0 2, 2
";

fn are_counted(alloc: Global, counts: Counts, table: &str) -> Result<(), Fail> {
    let stage = Stage::new(alloc)?;
    rows_hold(alloc, &mut Counter { stage, counts }, table)
}

#[test]
fn each_hook_is_asked_once(rt: HostRuntime) -> Result<(), Fail> {
    are_counted(rt.alloc(), Counts::Hooks, HOOKS)?;
    are_counted(rt.alloc(), Counts::Parts, HOOKS)
}

#[test]
fn each_handler_is_asked_once(rt: HostRuntime) -> Result<(), Fail> {
    are_counted(rt.alloc(), Counts::Handlers, HANDLED)
}
