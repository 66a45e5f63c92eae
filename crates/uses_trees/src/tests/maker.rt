//! Makes lists of contents that obey the format, by numbers that look like chance and are the same in each run. Every form of
//! the grammar is made: where a class or a text is wanted, a new one or a reference to an earlier one.

use jser_value::{Body, ClassPlace, Content, Desc, Field, Prim, Section, Text, TextPlace, Value};
use std::alloc::{AllocError, Global};

/// How deep values stand in one another at most.
const LEVELS: u8 = 3;

/// What a class is for.
#[derive(Clone, Copy, PartialEq, Eq)]
enum ClassKind {
    Serial,
    External,
    Enum,
    Ints,
    Values,
}

/// A class that may be named by its handle.
#[derive(Drop)]
struct Known {
    number: u32,
    kind: ClassKind,
    /// The type codes of its fields.
    codes: Vec<u8>,
    /// Whether its objects have an annotation.
    has_notes: bool,
    /// Which known class is its superclass.
    above: Option<usize>,
}

/// Makes lists, and knows the handles so far.
#[derive(Drop)]
pub struct Maker {
    alloc: Global,
    state: u64,
    /// How many handles there are.
    handles: u32,
    /// The bytes of strings.
    texts: Vec<u32>,
    classes: Vec<Known>,
}

impl Maker {
    /// A maker of the lists of this seed.
    pub fn new(alloc: Global, seed: u64) -> Maker {
        Maker {
            alloc,
            state: seed,
            handles: 0,
            texts: Vec::new(alloc),
            classes: Vec::new(alloc),
        }
    }

    /// A number below `sides`, or 0 where that is 0.
    pub fn roll(&mut self, sides: u32) -> u32 {
        self.state = self
            .state
            .wrapping_mul(6_364_136_223_846_793_005)
            .wrapping_add(1_442_695_040_888_963_407);
        let high = (self.state >> 33u32) as u32;
        high.checked_rem(sides).unwrap_or(0)
    }

    /// A place among so many.
    pub fn place(&mut self, count: usize) -> usize {
        self.roll(u32::try_from(count).unwrap_or(u32::MAX)) as usize
    }

    /// Whether a throw of so many sides shows 0.
    fn draws(&mut self, sides: u32) -> bool {
        self.roll(sides) == 0
    }

    /// A byte.
    pub fn byte(&mut self) -> u8 {
        u8::try_from(self.roll(0x100)).unwrap_or(0)
    }

    /// A UTF-16 unit.
    fn unit(&mut self) -> u16 {
        let unit = match self.roll(4) {
            0 => self.roll(0x80),
            1 => self.roll(0x800),
            2 => self.roll(0x2000).saturating_add(0xC000),
            _ => self.roll(0x1_0000),
        };
        u16::try_from(unit).unwrap_or(0)
    }

    /// Any kind of class.
    fn kind(&mut self) -> ClassKind {
        match self.roll(5) {
            0 => ClassKind::External,
            1 => ClassKind::Enum,
            2 => ClassKind::Ints,
            3 => ClassKind::Values,
            _ => ClassKind::Serial,
        }
    }

    /// The next handle.
    fn assign(&mut self) -> u32 {
        let number = self.handles;
        self.handles = number.saturating_add(1);
        number
    }

    /// A list of contents.
    pub fn contents(&mut self) -> Result<Vec<Content>, AllocError> {
        let mut list = Vec::new(self.alloc);
        for _ in 0..=self.roll(6) {
            if self.draws(8) {
                self.handles = 0;
                self.texts.clear();
                self.classes.clear();
                list.push(Content::Reset)?;
            } else {
                list.push(content(self, LEVELS)?)?;
            }
        }
        Ok(list)
    }

    /// A new string; its handle is the next one.
    fn new_text(&mut self) -> Result<Text, AllocError> {
        let mut units = Vec::new(self.alloc);
        for _ in 0..self.roll(5) {
            units.push(self.unit())?;
        }
        let long = self.draws(4);
        let number = self.assign();
        self.texts.push(number)?;
        Ok(Text { long, units })
    }

    /// The handle of the string at this place.
    fn text_at(&self, at: usize) -> Option<u32> {
        self.texts.get(at).copied()
    }

    /// The handle of the class at this place, if it is of this kind.
    fn class_at(&self, at: usize, kind: ClassKind) -> Option<u32> {
        match self.classes.get(at) {
            Some(known) if known.kind == kind => Some(known.number),
            _ => None,
        }
    }

    /// A new string, or a reference to one.
    fn text_place(&mut self) -> Result<TextPlace, AllocError> {
        let count = self.texts.len();
        let at = self.place(count);
        match self.text_at(at) {
            Some(number) if self.draws(2) => Ok(TextPlace::Back(number)),
            _ => Ok(TextPlace::New(self.new_text()?)),
        }
    }

    /// A name of up to three letters.
    fn name(&mut self) -> Result<Vec<u16>, AllocError> {
        let mut name = Vec::new(self.alloc);
        for _ in 0..self.roll(4) {
            name.push(
                u16::try_from(self.roll(26))
                    .unwrap_or(0)
                    .saturating_add(0x41),
            )?;
        }
        Ok(name)
    }

    /// The name of a class of this kind.
    fn class_name(&mut self, kind: ClassKind) -> Result<Vec<u16>, AllocError> {
        match kind {
            ClassKind::Ints => [0x5B, 0x49].to_vec(self.alloc),
            ClassKind::Values if self.draws(2) => [0x5B, 0x5B, 0x49].to_vec(self.alloc),
            ClassKind::Values => [0x5B, 0x4C, 0x41, 0x3B].to_vec(self.alloc),
            _ => self.name(),
        }
    }

    /// Fields: first those of primitive types.
    fn fields(&mut self) -> Result<Vec<Field>, AllocError> {
        let mut fields = Vec::new(self.alloc);
        for _ in 0..self.roll(4) {
            let code = b"BCDFIJSZ"
                .get(self.roll(8) as usize)
                .copied()
                .unwrap_or(b'B');
            let name = self.name()?;
            fields.push(Field {
                code,
                name,
                text: None,
            })?;
        }
        for _ in 0..self.roll(3) {
            let code = if self.draws(2) { b'[' } else { b'L' };
            let name = self.name()?;
            let text = Some(self.text_place()?);
            fields.push(Field { code, name, text })?;
        }
        Ok(fields)
    }

    /// The raw value of a field with this code.
    fn prim(&mut self, code: u8) -> Prim {
        let bits = self.roll(0xFFFF_FFFF);
        let wide = u64::from(bits) << 32u32 | u64::from(self.roll(0xFFFF_FFFF));
        let short = u16::try_from(self.roll(0x1_0000)).unwrap_or(0);
        match code {
            b'B' => Prim::B(self.byte()),
            b'C' => Prim::C(short),
            b'D' => Prim::D(wide),
            b'F' => Prim::F(bits),
            b'I' => Prim::I(bits),
            b'J' => Prim::J(wide),
            b'S' => Prim::S(short),
            _ => Prim::Z(self.byte()),
        }
    }

    /// A value with nothing in it.
    fn leaf(&mut self) -> Result<Value, AllocError> {
        match self.roll(3) {
            0 if self.handles > 0 => Ok(Value::Back(self.roll(self.handles))),
            1 => Ok(Value::Text(self.new_text()?)),
            _ => Ok(Value::Null),
        }
    }

    /// Block data.
    fn block(&mut self) -> Result<Content, AllocError> {
        let mut bytes = Vec::new(self.alloc);
        for _ in 0..self.roll(5) {
            bytes.push(self.byte())?;
        }
        Ok(Content::Block {
            long: self.draws(3),
            bytes,
        })
    }

    /// A known class of this kind, by where it is kept, and its handle.
    fn known(&mut self, kind: ClassKind) -> Option<(usize, u32)> {
        let count = self.classes.len();
        let at = self.place(count);
        let number = self.class_at(at, kind)?;
        Some((at, number))
    }

    /// A class of this kind is known from now on.
    fn enter(
        &mut self,
        number: u32,
        kind: ClassKind,
        codes: Vec<u8>,
        has_notes: bool,
        above: Option<usize>,
    ) -> Result<usize, AllocError> {
        let at = self.classes.len();
        self.classes.push(Known {
            number,
            kind,
            codes,
            has_notes,
            above,
        })?;
        Ok(at)
    }

    /// A class and its superclasses, by where they are kept.
    fn chain(&self, own: usize) -> Result<Vec<usize>, AllocError> {
        let mut chain = Vec::new(self.alloc);
        let mut next = Some(own);
        for _ in 0..self.classes.len() {
            if let Some(at) = next {
                chain.push(at)?;
                next = match self.classes.get(at) {
                    Some(known) => known.above,
                    None => None,
                };
            }
        }
        Ok(chain)
    }

    /// What the class that is kept there writes: its type codes, and whether it has an annotation.
    fn layer(&self, at: usize) -> Result<(Vec<u8>, bool), AllocError> {
        match self.classes.get(at) {
            Some(known) => Ok((known.codes.clone()?, known.has_notes)),
            None => Ok((Vec::new(self.alloc), false)),
        }
    }
}

/// The flags of a class of this kind.
fn flags_of(kind: ClassKind, has_notes: bool) -> u8 {
    match kind {
        ClassKind::External => 0x0C,
        ClassKind::Enum => 0x12,
        _ if has_notes => 0x03,
        _ => 0x02,
    }
}

/// A block or a value.
#[cycle(make)]
fn content(maker: &mut Maker, levels: u8) -> Result<Content, AllocError> {
    if maker.draws(3) {
        maker.block()
    } else {
        Ok(Content::Value(value(maker, levels)?))
    }
}

/// The contents of an annotation.
#[cycle(make)]
fn notes(maker: &mut Maker, levels: u8) -> Result<Vec<Content>, AllocError> {
    let mut notes = Vec::new(maker.alloc);
    for _ in 0..maker.roll(3) {
        notes.push(content(maker, levels)?)?;
    }
    Ok(notes)
}

/// A value with so many levels in it at most.
#[cycle(make)]
fn value(maker: &mut Maker, levels: u8) -> Result<Value, AllocError> {
    if levels == 0 {
        return maker.leaf();
    }
    match maker.roll(8) {
        0 | 1 => maker.leaf(),
        2 => {
            let kind = maker.kind();
            let (desc, _) = desc(maker, kind, levels - 1)?;
            Ok(Value::Desc(Box::new(maker.alloc, desc)?))
        }
        3 => class_object(maker, levels - 1),
        4 => array(maker, levels - 1),
        5 => enum_constant(maker, levels - 1),
        6 => external(maker, levels - 1),
        _ => object(maker, levels - 1),
    }
}

#[cycle(make)]
fn class_object(maker: &mut Maker, levels: u8) -> Result<Value, AllocError> {
    let kind = maker.kind();
    let (descr, _) = class(maker, kind, levels)?;
    let _ = maker.assign();
    Ok(Value::ClassObject(descr))
}

/// An array of ints, or of values.
#[cycle(make)]
fn array(maker: &mut Maker, levels: u8) -> Result<Value, AllocError> {
    let of_ints = maker.draws(2);
    let kind = if of_ints {
        ClassKind::Ints
    } else {
        ClassKind::Values
    };
    let (descr, _) = class(maker, kind, levels)?;
    let _ = maker.assign();
    let body = if of_ints {
        Body::Prims(ints(maker)?)
    } else {
        Body::Values(elements(maker, levels)?)
    };
    Ok(Value::Array { descr, body })
}

fn ints(maker: &mut Maker) -> Result<Vec<Prim>, AllocError> {
    let mut ints = Vec::new(maker.alloc);
    for _ in 0..maker.roll(4) {
        ints.push(maker.prim(b'I'))?;
    }
    Ok(ints)
}

#[cycle(make)]
fn elements(maker: &mut Maker, levels: u8) -> Result<Vec<Value>, AllocError> {
    let mut elements = Vec::new(maker.alloc);
    for _ in 0..maker.roll(4) {
        elements.push(value(maker, levels)?)?;
    }
    Ok(elements)
}

#[cycle(make)]
fn enum_constant(maker: &mut Maker, levels: u8) -> Result<Value, AllocError> {
    let (descr, _) = class(maker, ClassKind::Enum, levels)?;
    let _ = maker.assign();
    let name = maker.text_place()?;
    Ok(Value::EnumConst { descr, name })
}

/// An object of an externalizable class.
#[cycle(make)]
fn external(maker: &mut Maker, levels: u8) -> Result<Value, AllocError> {
    let (descr, _) = class(maker, ClassKind::External, levels)?;
    let _ = maker.assign();
    let section = Section {
        prims: Vec::new(maker.alloc),
        values: Vec::new(maker.alloc),
        notes: Some(notes(maker, levels)?),
    };
    let mut sections = Vec::new(maker.alloc);
    sections.push(section)?;
    Ok(Value::Object { descr, sections })
}

/// An object of a serializable class.
#[cycle(make)]
fn object(maker: &mut Maker, levels: u8) -> Result<Value, AllocError> {
    let (descr, own) = class(maker, ClassKind::Serial, levels)?;
    let _ = maker.assign();
    let chain = maker.chain(own)?;
    let mut sections = Vec::new(maker.alloc);
    for at in chain.iter().rev() {
        sections.push(section(maker, *at, levels)?)?;
    }
    Ok(Value::Object { descr, sections })
}

/// What the class that is kept there wrote.
#[cycle(make)]
fn section(maker: &mut Maker, at: usize, levels: u8) -> Result<Section, AllocError> {
    let (codes, has_notes) = maker.layer(at)?;
    let mut prims = Vec::new(maker.alloc);
    let mut values = Vec::new(maker.alloc);
    for code in &codes {
        match *code {
            b'[' | b'L' => values.push(value(maker, levels)?)?,
            code => prims.push(maker.prim(code))?,
        }
    }
    let notes = if has_notes {
        Some(notes(maker, levels)?)
    } else {
        None
    };
    Ok(Section {
        prims,
        values,
        notes,
    })
}

/// A class place of this kind, and where the class is kept.
#[cycle(make)]
fn class(
    maker: &mut Maker,
    kind: ClassKind,
    levels: u8,
) -> Result<(ClassPlace, usize), AllocError> {
    if let Some((at, number)) = maker.known(kind) {
        return Ok((ClassPlace::Back(number), at));
    }
    let (desc, at) = desc(maker, kind, levels)?;
    Ok((ClassPlace::New(Box::new(maker.alloc, desc)?), at))
}

/// A superclass place, and where the class is kept, if there is one.
#[cycle(make)]
fn superclass(
    maker: &mut Maker,
    kind: ClassKind,
    levels: u8,
) -> Result<(ClassPlace, Option<usize>), AllocError> {
    if levels == 0 || kind == ClassKind::Enum || maker.draws(2) {
        return Ok((ClassPlace::Null, None));
    }
    let (place, at) = class(maker, ClassKind::Serial, levels - 1)?;
    Ok((place, Some(at)))
}

/// A new descriptor, and where the class is kept.
#[cycle(make)]
fn desc(maker: &mut Maker, kind: ClassKind, levels: u8) -> Result<(Desc, usize), AllocError> {
    if kind == ClassKind::Serial && maker.draws(4) {
        return proxy(maker, levels);
    }
    let number = maker.assign();
    let name = maker.class_name(kind)?;
    let fields = maker.fields()?;
    let notes = notes(maker, levels)?;
    let (parent, above) = superclass(maker, kind, levels)?;
    let has_notes = maker.draws(2);
    let codes = fields.iter().map(|field| field.code).collect(maker.alloc)?;
    let at = maker.enter(number, kind, codes, has_notes, above)?;
    let desc = Desc::Plain {
        name,
        suid: u64::from(maker.roll(0xFFFF_FFFF)),
        flags: flags_of(kind, has_notes),
        fields,
        notes,
        parent,
    };
    Ok((desc, at))
}

/// A new proxy descriptor, and where the class is kept.
#[cycle(make)]
fn proxy(maker: &mut Maker, levels: u8) -> Result<(Desc, usize), AllocError> {
    let number = maker.assign();
    let mut interfaces = Vec::new(maker.alloc);
    for _ in 0..maker.roll(3) {
        interfaces.push(maker.name()?)?;
    }
    let notes = notes(maker, levels)?;
    let (parent, above) = superclass(maker, ClassKind::Serial, levels)?;
    let none = Vec::new(maker.alloc);
    let at = maker.enter(number, ClassKind::Serial, none, false, above)?;
    let desc = Desc::Proxy {
        interfaces,
        notes,
        parent,
    };
    Ok((desc, at))
}
