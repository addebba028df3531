// Where terms end. What falls from call to call is what is left of the words.
ghost use Rattle.std.specs.Prelude.{◌≡◌, [], ◌+◌, ◌*◌, ◌/◌, ◌%◌, ◌≤◌, ◌<◌, length};
ghost use Rattle.decoding.specs.ValidTest.{well_formed};
ghost use Rattle.layout.specs.Numbers.{payload, bodies_size};
ghost use Rattle.layout_laws.specs.Parse.{parse_methods};
ghost use Rattle.layout_laws.specs.ParseLaws.{parse};
ghost use Rattle.checks.specs.Scope.{Kept};
ghost use Rattle.term_words.specs.Kinds.{allowed};
ghost use Rattle.term_words.specs.Words.{holds};
ghost use Rattle.term_words.specs.Ends.{end_of, methods_hold, Behind, bound, Leaf, Unlisted, Operands, Closed, TermEnds, FormEnds, LiteralEnds, PartsEnd, FieldsEnd, MethodsEnd};

use checks::scope;
use layout::{DIGIT, NAME_LIMIT, NO_NAME, PAIR_LIMIT, PAYLOAD, TAGGED_LIMIT, kind};
use term_words::{Owner, header, scopes};

// Words that terms stand in, and whose they are.
#[derive(Clone, Copy)]
pub struct Terms<'a> {
    pub words: &'a [u32],
    pub owner: Owner<'a>,
    ghost short: { length words.now ≤ bodies_size },
    ghost few: { owner.words ≤ 64 },
}

// What holds where a term stands: whether it may refer, and the level of its scope.
#[derive(Clone, Copy)]
pub struct Context {
    pub refs: bool,
    pub level: u16,
}

// The empty place behind two names of three.
const AFTER_TWO: u32 = NO_NAME * PAIR_LIMIT;

// Words below this one have nothing behind them.
const OPERANDS: u32 = 7 * PAYLOAD;

impl Terms<'_> {
    // Where the expression ends that stands at the start of the words, if one stands there that the actor may have. In such a one every
    // variable is bound, the names in one literal differ, and references name what is there, isolates only the actor's own. So it is not
    // answered that an isolate's method may use a word bound around the isolate, nor that an isolate's or an actor's literal may refer. What
    // stands behind the expression is not looked at.
    pub fn expression(&self) -> Option<usize>
        ensures value { result ≡ end_of (well_formed self.now.owner.words (allowed self.now.owner.kinds.now self.now.owner.actor) []) (parse self.now.words.now 0) }
        ensures behind { Behind self.now.words.now 0 result }
    {
        let mut scope = [0u16; 128];
        self.term(
            0,
            &mut scope,
            Context {
                refs: true,
                level: 1,
            },
        )
    }

    // Where the `count` methods at `at` end, if they are some that an entity may have: without `refs`, an isolate, whose methods refer to
    // nothing. So it is not answered that two methods may have one name and equally many parameters, nor that a method may have a parameter
    // twice.
    pub fn methods(&self, at: usize, count: usize, refs: bool) -> Option<usize>
        requires { at ≤ 4096 }
        ensures value { result ≡ end_of (methods_hold self.now.owner.words (holds refs self.now.owner.kinds.now self.now.owner.actor)) (parse_methods (length self.now.words.now) self.now.words.now count at) }
        ensures behind { Behind self.now.words.now at result }
    {
        if count == 0 {
            return Some(at);
        }
        if 4 < count {
            return None;
        }
        let mut scope = [0u16; 128];
        scope[0] = 1;
        self.methods_from(at, count, 0, &mut scope, Context { refs, level: 1 })
    }

    // Whether the word `h` is a variable in scope, or a value.
    #[tactic(auto, using(crate::specs::FormLaws::leaf_laws))]
    fn leaf(&self, h: u32, scope: &[u16; 128], e: Context) -> bool
        requires { h < 7 * payload }
        ensures { Leaf self.now.owner.words (holds e.refs self.now.owner.kinds.now self.now.owner.actor) scope.now e.level h result }
    {
        if h / PAYLOAD == 6 {
            scopes::sees(scope, e.level, h % PAYLOAD)
        } else {
            self.owner.value(h, e.refs)
        }
    }

    // How many terms stand behind the word `h` of a call or a send: who is asked, and the arguments.
    #[tactic(auto, using(crate::specs::FormLaws::operand_laws))]
    fn message_operands(&self, h: u32) -> Option<usize>
        requires { (7 * payload ≤ h) × Unlisted (h / payload) }
        ensures { Operands self.now.owner.words h result }
    {
        let n = header::arguments(h % PAYLOAD);
        match h / PAYLOAD {
            kind::CALL => self.owner.call_name(h).then_some(n),
            kind::SEND => self.owner.message_name(h).then_some(n),
            _ => None,
        }
    }

    // How many terms stand behind the word `h`, all in its own scope, if it is an operator's and may have its payload.
    #[tactic(auto, using(crate::specs::FormLaws::operand_laws))]
    fn operands(&self, h: u32) -> Option<usize>
        requires { 7 * payload ≤ h }
        ensures { Operands self.now.owner.words h result }
    {
        let k = h / PAYLOAD;
        let p = h % PAYLOAD;
        match kinds::operator(k) {
            1 => (p == 0).then_some(kinds::operands(k) as usize),
            2 => self.owner.is_name(p).then_some(kinds::operands(k) as usize),
            _ => self.message_operands(h),
        }
    }

    // The end of the term at `at`. One word a turn, and its operands are among the terms still to come. Only a word that changes the scope is
    // read by a call, behind which the place goes on: no `for` goes over places that jump.
    #[cycle(terms)]
    pub fn term(&self, at: usize, scope: &mut [u16; 128], e: Context) -> Option<usize>
        requires { (at ≤ 4096) × (e.level ≤ at + 1) }
        ensures term_ends { TermEnds self.now.owner.words (holds e.refs self.now.owner.kinds.now self.now.owner.actor) scope.old e.level self.now.words.now at result }
        ensures kept { Kept scope.old scope.new }
        ensures behind { Behind self.now.words.now at result }
    {
        let mut i = at;
        let mut left: usize = 1;
        while 0 < left {
            if self.words.len() <= i {
                return None;
            }
            let h = self.words[i];
            if h < OPERANDS {
                if !self.leaf(h, scope, e) {
                    return None;
                }
                i += 1;
                left -= 1;
            } else if let Some(n) = self.operands(h) {
                i += 1;
                left = left - 1 + n;
            } else {
                i = self.form(i + 1, h, scope, e)?;
                left -= 1;
            }
        }
        Some(i)
    }

    // The end of a term whose word `h` stands before `at` and is no operator: it binds names, is a literal, or is none at all.
    #[cycle(terms)]
    fn form(&self, at: usize, h: u32, scope: &mut [u16; 128], e: Context) -> Option<usize>
        requires bounds { (at ≤ 4096) × (e.level ≤ at) }
        requires closed { Closed self.now.owner.words h }
        ensures form_ends { FormEnds self.now.owner.words (holds e.refs self.now.owner.kinds.now self.now.owner.actor) scope.old e.level self.now.words.now (h / payload) (h % payload) at result }
        ensures kept { Kept scope.old scope.new }
        ensures behind { Behind self.now.words.now at result }
    {
        let p = h % PAYLOAD;
        match h / PAYLOAD {
            kind::LET => self.let_in(at, p, scope, e),
            kind::FUTURE => self.future(at, p, scope, e),
            kind::OBJECT | kind::ISOLATE | kind::ACTOR => self.literal(at, h, scope, e),
            _ => None,
        }
    }

    // The end of the term at `at` where the three names in `names` are bound.
    #[cycle(terms)]
    fn inside(&self, at: usize, names: u32, scope: &mut [u16; 128], e: Context) -> Option<usize>
        requires { (at ≤ 4096) × (e.level ≤ at + 1) }
        ensures term_ends { TermEnds self.now.owner.words (holds e.refs self.now.owner.kinds.now self.now.owner.actor) (bound scope.old e.level names) e.level self.now.words.now at result }
        ensures kept { Kept scope.old scope.new }
        ensures behind { Behind self.now.words.now at result }
    {
        let old = scope::bind(scope, u64::from(names), e.level);
        let r = self.term(at, scope, e);
        scope::unbind(scope, u64::from(names), old);
        r
    }

    // The end of a let of the word `x` whose terms are at `at`. Only the second sees it.
    #[cycle(terms)]
    fn let_in(&self, at: usize, x: u32, scope: &mut [u16; 128], e: Context) -> Option<usize>
        requires { (at ≤ 4096) × (e.level ≤ at + 1) }
        ensures form_ends { FormEnds self.now.owner.words (holds e.refs self.now.owner.kinds.now self.now.owner.actor) scope.old e.level self.now.words.now 11 x at result }
        ensures kept { Kept scope.old scope.new }
        ensures behind { Behind self.now.words.now at result }
    {
        if !self.owner.is_variable(x) {
            return None;
        }
        let a = self.term(at, scope, e)?;
        let old = scope::swap(scope, x as usize, e.level);
        let r = self.term(a, scope, e);
        scope::swap(scope, x as usize, old);
        r
    }

    // The end of a future of the two words in `p` whose term is at `at`.
    #[cycle(terms)]
    fn future(&self, at: usize, p: u32, scope: &mut [u16; 128], e: Context) -> Option<usize>
        requires { (at ≤ 4096) × (e.level ≤ at + 1) × (p < payload) }
        ensures form_ends { FormEnds self.now.owner.words (holds e.refs self.now.owner.kinds.now self.now.owner.actor) scope.old e.level self.now.words.now 12 p at result }
        ensures kept { Kept scope.old scope.new }
        ensures behind { Behind self.now.words.now at result }
    {
        if !self.owner.are_two(p % NAME_LIMIT, p / NAME_LIMIT) {
            return None;
        }
        self.inside(at, p + AFTER_TWO, scope, e)
    }

    // The end of a literal of the word `h` whose fields and methods are at `at`.
    #[cycle(terms)]
    fn literal(&self, at: usize, h: u32, scope: &mut [u16; 128], e: Context) -> Option<usize>
        requires { (at ≤ 4096) × (e.level ≤ at) }
        ensures literal_ends { LiteralEnds self.now.owner.words (holds e.refs self.now.owner.kinds.now self.now.owner.actor) scope.old e.level self.now.words.now h at result }
        ensures kept { Kept scope.old scope.new }
        ensures behind { Behind self.now.words.now at result }
    {
        let p = h % PAYLOAD;
        if !header::is_small(p) {
            return None;
        }
        let level = scopes::opened(e.level, h);
        let refs = scopes::refers(e.refs, h);
        let n = (p % DIGIT) as usize;
        let m = (p / DIGIT % DIGIT) as usize;
        let old = scope::swap(scope, 0, level);
        let r = self.parts(at, n, m, scope, Context { refs, level });
        scope::swap(scope, 0, old);
        r
    }

    // The end of the `n` fields at `at` and of the `m` methods behind them.
    #[cycle(terms)]
    fn parts(
        &self,
        at: usize,
        n: usize,
        m: usize,
        scope: &mut [u16; 128],
        e: Context,
    ) -> Option<usize>
        requires { (at ≤ 4096) × (e.level ≤ at + 1) × (n ≤ 8) × (m ≤ 8) }
        ensures parts_end { PartsEnd self.now.owner.words (holds e.refs self.now.owner.kinds.now self.now.owner.actor) scope.old e.level self.now.words.now n m at result }
        ensures kept { Kept scope.old scope.new }
        ensures behind { Behind self.now.words.now at result }
    {
        let a = self.fields_from(at, n, 0, scope, e)?;
        self.methods_from(a, m, 0, scope, e)
    }

    // The end of the `n` fields at `at`, behind others of the signatures in `kept`.
    #[cycle(terms)]
    fn fields_from(
        &self,
        at: usize,
        n: usize,
        kept: u64,
        scope: &mut [u16; 128],
        e: Context,
    ) -> Option<usize>
        requires { (at ≤ 4096) × (e.level ≤ at + 1) × (n ≤ 8) }
        ensures fields_end { FieldsEnd self.now.owner.words (holds e.refs self.now.owner.kinds.now self.now.owner.actor) scope.old e.level self.now.words.now kept n at result }
        ensures kept { Kept scope.old scope.new }
        ensures behind { Behind self.now.words.now at result }
    {
        if n == 0 {
            return Some(at);
        }
        if self.words.len() <= at {
            return None;
        }
        let h = self.words[at];
        if !self.owner.field_header(h, kept) {
            return None;
        }
        let a = self.term(at + 1, scope, e)?;
        self.fields_from(a, n - 1, header::noted(h, kept), scope, e)
    }

    // The same of methods. One function for both would have two arguments more, for the test of a header and for what stands behind it.
    #[cycle(terms)]
    pub fn methods_from(
        &self,
        at: usize,
        n: usize,
        kept: u64,
        scope: &mut [u16; 128],
        e: Context,
    ) -> Option<usize>
        requires { (at ≤ 4096) × (e.level ≤ at + 1) × (n ≤ 8) }
        ensures methods_end { MethodsEnd self.now.owner.words (holds e.refs self.now.owner.kinds.now self.now.owner.actor) scope.old e.level self.now.words.now kept n at result }
        ensures kept { Kept scope.old scope.new }
        ensures behind { Behind self.now.words.now at result }
    {
        if n == 0 {
            return Some(at);
        }
        if self.words.len() <= at {
            return None;
        }
        let h = self.words[at];
        if !self.owner.method_header(h, kept) {
            return None;
        }
        let a = self.inside(at + 1, h / TAGGED_LIMIT, scope, e)?;
        self.methods_from(a, n - 1, header::noted(h, kept), scope, e)
    }
}
