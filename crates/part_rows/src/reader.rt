ghost use Rattle.std.specs.Prelude.{◌≡◌, IfOk, IfSome, OnOk};
ghost use Rattle.epl_values.specs.Order.{KeysAscend};
ghost use Rattle.value_steps.specs.Orderly.{AreOrderly, AreOrderlyMoves, AreOrderlyPairs, IsOrderly, IsOrderlyMove};

use anyhow::{Result, bail, ensure};
use body_meaning::Move;
use epl_values::{EventShapes, Items, List, Pairs, Shape, Text, Value, Values};
use evt_text::{behind_blanks, value_at};
use sqlite_items::Boxed;
use std::alloc::{AllocError, Global};
use value_steps::put_entry;

/// How deep values and shapes are nested at most.
pub const DEPTH: usize = 16;

/// How many elements, entries or steps there are at most.
const MOST: usize = 64;

/// What is left of a line.
#[derive(Drop)]
pub struct Reader<'t> {
    rest: &'t str,
}

impl<'t> Reader<'t> {
    /// A line of which nothing is read.
    pub fn new(line: &'t str) -> Reader<'t> {
        Reader { rest: line }
    }

    /// Whether all of it is read.
    pub fn is_done(&self) -> bool {
        behind_blanks(self.rest).is_empty()
    }

    /// The signs up to the next blank.
    pub fn word(&mut self) -> &'t str {
        let text = behind_blanks(self.rest);
        match text.split_once(' ') {
            Some((word, rest)) => {
                self.rest = rest;
                word
            }
            None => {
                self.rest = "";
                text
            }
        }
    }

    /// A number that isn't negative.
    pub fn count(&mut self) -> Result<usize> {
        Ok(self.word().parse::<usize>()?)
    }

    /// Passes these signs if they are next.
    fn sign(&mut self, sign: &str) -> bool {
        match self.rest.strip_prefix(sign) {
            Some(rest) => {
                self.rest = rest;
                true
            }
            None => false,
        }
    }

    /// Passes the name of an event type, if one is next with these signs behind it, and gives the type's number.
    fn event(&mut self, types: &EventShapes, behind: &str) -> Option<u16> {
        for (number, event) in types.as_slice().iter().enumerate() {
            if let Some(rest) = self.rest.strip_prefix(event.name.as_str()) {
                if let Some(rest) = rest.strip_prefix(behind) {
                    self.rest = rest;
                    return u16::try_from(number).ok();
                }
            }
        }
        None
    }

    /// The integer that is next.
    fn integer(&mut self, alloc: Global) -> Result<i64> {
        let none = EventShapes::new(alloc);
        let (value, end) = value_at(alloc, self.rest, 0, &Shape::Integer, &none)?;
        self.rest = self.rest.get(end..).unwrap_or("");
        match value {
            Value::Integer(number) => Ok(number),
            _ => bail!("no integer"),
        }
    }

    /// The string that is next.
    #[tactic(auto, using(value_steps::proofs::Called::text_orderly))]
    fn string(&mut self, alloc: Global) -> Result<Value>
        ensures { IfOk result IsOrderly }
    {
        let none = EventShapes::new(alloc);
        let (value, end) = value_at(alloc, self.rest, 0, &Shape::Text, &none)?;
        self.rest = self.rest.get(end..).unwrap_or("");
        match value {
            Value::Text(text) => Ok(Value::Text(text)),
            _ => bail!("no string"),
        }
    }

    /// `true`, `false`, `no_context`, `context(3)`, `listener(7)`, a string, or else an integer.
    #[tactic(auto, using(value_steps::proofs::Called::integer_orderly, value_steps::proofs::Called::truth_orderly, value_steps::proofs::Called::none_orderly, value_steps::proofs::Called::context_orderly, value_steps::proofs::Called::listener_orderly))]
    fn scalar(&mut self, alloc: Global) -> Result<Value>
        ensures { IfOk result IsOrderly }
    {
        if self.sign("true") {
            return Ok(Value::Boolean(true));
        }
        if self.sign("false") {
            return Ok(Value::Boolean(false));
        }
        if self.sign("no_context") {
            return Ok(Value::NoContext);
        }
        if self.sign("context(") {
            let slot = u8::try_from(self.integer(alloc)?)?;
            ensure!(self.sign(")"), "a bracket is open");
            return Ok(Value::Context(slot));
        }
        if self.sign("listener(") {
            let birth = u64::try_from(self.integer(alloc)?)?;
            ensure!(self.sign(")"), "a bracket is open");
            return Ok(Value::Listener(birth));
        }
        if self.rest.starts_with('"') {
            return self.string(alloc);
        }
        Ok(Value::Integer(self.integer(alloc)?))
    }

    /// A value as a program writes it: `7`, `"a"`, `[1,2]`, `{"a":1}`, `Point(1,"x")`.
    #[cycle(values)]
    #[tactic(auto, using(value_steps::proofs::Called::sequence_orderly, value_steps::proofs::Called::dictionary_orderly, value_steps::proofs::Called::event_orderly))]
    pub fn value(&mut self, alloc: Global, types: &EventShapes, depth: usize) -> Result<Value>
        ensures { IfOk result IsOrderly }
    {
        ensure!(depth > 0, "nested too deep");
        self.rest = behind_blanks(self.rest);
        if self.sign("[") {
            let items = self.values(alloc, types, "]", depth - 1)?;
            return Ok(Value::Sequence(as_elements(alloc, items)?));
        }
        if self.sign("{") {
            let pairs = self.pairs(alloc, types, depth - 1)?;
            return Ok(Value::Dictionary(pairs));
        }
        if let Some(number) = self.event(types, "(") {
            let fields = self.values(alloc, types, ")", depth - 1)?;
            return Ok(Value::Event(number, fields));
        }
        self.scalar(alloc)
    }

    /// Values with commas between them, up to these signs.
    #[cycle(values)]
    fn values(
        &mut self,
        alloc: Global,
        types: &EventShapes,
        close: &str,
        depth: usize,
    ) -> Result<Values>
        ensures { IfOk result AreOrderly }
    {
        let mut values = List::new(alloc);
        'items: for _ in 0..MOST {
            if self.sign(close) {
                return Ok(values);
            }
            let item = self.value(alloc, types, depth)?;
            values.push(item)?;
            self.sign(",");
        }
        bail!("too many values")
    }

    /// The entries of a dictionary.
    pub fn dictionary(&mut self, alloc: Global, types: &EventShapes) -> Result<Pairs>
        ensures { IfOk result KeysAscend }
    {
        self.rest = behind_blanks(self.rest);
        ensure!(self.sign("{"), "a dictionary begins with a bracket");
        self.pairs(alloc, types, DEPTH)
    }

    /// The elements of a sequence.
    pub fn sequence(&mut self, alloc: Global, types: &EventShapes) -> Result<Values>
        ensures { IfOk result AreOrderly }
    {
        self.rest = behind_blanks(self.rest);
        ensure!(self.sign("["), "a sequence begins with a bracket");
        self.values(alloc, types, "]", DEPTH)
    }

    /// The text of the string that is next.
    pub fn text(&mut self, alloc: Global) -> Result<Text> {
        self.rest = behind_blanks(self.rest);
        match self.string(alloc)? {
            Value::Text(text) => Ok(text),
            _ => bail!("no string"),
        }
    }

    /// Entries with commas between them, up to the closing bracket.
    #[cycle(values)]
    fn pairs(&mut self, alloc: Global, types: &EventShapes, depth: usize) -> Result<Pairs>
        ensures ascend { IfOk result KeysAscend }
        ensures orderly { IfOk result AreOrderlyPairs }
    {
        let mut pairs = Pairs::new(alloc);
        'entries: for _ in 0..MOST {
            if self.sign("}") {
                return Ok(pairs);
            }
            let key = self.value(alloc, types, depth)?;
            ensure!(self.sign(":"), "a key without a value");
            let value = self.value(alloc, types, depth)?;
            put_pair(alloc, &mut pairs, key, value)?;
            self.sign(",");
        }
        bail!("too many entries")
    }

    /// The step of a path that is next: `.1`, `[0]`, `{"a"}`; none where the path ends.
    fn step(&mut self, alloc: Global, types: &EventShapes) -> Result<Option<Move>>
        ensures { IfOk result (λ step. IfSome step IsOrderlyMove) }
    {
        if self.sign(".") {
            return Ok(Some(Move::Field(u16::try_from(self.integer(alloc)?)?)));
        }
        if self.sign("[") {
            let place = self.integer(alloc)?;
            ensure!(self.sign("]"), "a bracket is open");
            return Ok(Some(Move::Item(place)));
        }
        if self.sign("{") {
            let key = self.value(alloc, types, DEPTH)?;
            ensure!(self.sign("}"), "a bracket is open");
            return Ok(Some(Move::Key(key)));
        }
        Ok(None)
    }

    /// A path: `at` and its steps.
    pub fn moves(&mut self, alloc: Global, types: &EventShapes) -> Result<List<Move>>
        ensures { IfOk result AreOrderlyMoves }
    {
        let mut moves = List::new(alloc);
        self.rest = behind_blanks(self.rest);
        ensure!(self.sign("at"), "a path begins with at");
        'steps: for _ in 0..MOST {
            let Some(step) = self.step(alloc, types)? else {
                return Ok(moves);
            };
            moves.push(step)?;
        }
        bail!("too many steps")
    }

    /// A shape as a program writes it: `integer`, `sequence<string>`, `Point`; `event(9)` is that of an event type's number.
    #[cycle(shapes)]
    pub fn shape(&mut self, alloc: Global, types: &EventShapes, depth: usize) -> Result<Shape> {
        ensure!(depth > 0, "nested too deep");
        self.rest = behind_blanks(self.rest);
        if self.sign("sequence<") {
            let element = self.shape(alloc, types, depth - 1)?;
            ensure!(self.sign(">"), "a bracket is open");
            return Ok(Shape::Sequence(Boxed::new(alloc, element)?));
        }
        if self.sign("dictionary<") {
            let key = self.shape(alloc, types, depth - 1)?;
            ensure!(self.sign(","), "a shape is missing");
            let value = self.shape(alloc, types, depth - 1)?;
            ensure!(self.sign(">"), "a bracket is open");
            return Ok(Shape::Dictionary(Boxed::new(alloc, key)?, Boxed::new(alloc, value)?));
        }
        self.plain_shape(alloc, types)
    }

    fn plain_shape(&mut self, alloc: Global, types: &EventShapes) -> Result<Shape> {
        if let Some(number) = self.event(types, "") {
            return Ok(Shape::Event(number));
        }
        if self.sign("event(") {
            let number = u16::try_from(self.integer(alloc)?)?;
            ensure!(self.sign(")"), "a bracket is open");
            return Ok(Shape::Event(number));
        }
        if self.sign("integer") {
            return Ok(Shape::Integer);
        }
        if self.sign("boolean") {
            return Ok(Shape::Boolean);
        }
        if self.sign("string") {
            return Ok(Shape::Text);
        }
        if self.sign("context") {
            return Ok(Shape::Context);
        }
        if self.sign("listener") {
            return Ok(Shape::Listener);
        }
        bail!("no shape")
    }
}

/// Values as the elements of a sequence.
pub fn as_elements(alloc: Global, values: Values) -> Result<Items, AllocError>
    ensures { IfOk result (λ items. items ≡ values) }
{
    let mut items = Items::new(alloc);
    for value in values.into_vec() {
        items.push(value)?;
    }
    Ok(items)
}

/// Puts a value at a key, where all is in order.
fn put_pair(alloc: Global, pairs: &mut Pairs, key: Value, value: Value) -> Result<(), AllocError>
    requires ascend { KeysAscend pairs.old }
    requires orderly { AreOrderlyPairs pairs.old }
    requires of_key { IsOrderly key }
    requires of_value { IsOrderly value }
    ensures ascend { OnOk result (KeysAscend pairs.new) }
    ensures orderly { OnOk result (AreOrderlyPairs pairs.new) }
{
    put_entry(alloc, pairs, key, value)?;
    Ok(())
}
