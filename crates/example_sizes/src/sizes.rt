//! The classes of a stream, and the objects that are open, kept along its items.

use serialstream::{BASE_WIRE_HANDLE, Item, TC_CLASSDESC, TC_OBJECT, TC_PROXYCLASSDESC, TC_RESET};
use std::alloc::{AllocError, Global};

/// A class, and how many objects of it there are, with how many bytes.
#[derive(Drop)]
pub struct Class {
    pub name: Vec<u8>,
    pub objects: u64,
    pub bytes: u64,
}

/// An object that is open.
#[derive(Clone, Copy)]
struct Open {
    /// The index of its class, once that has come.
    class: Option<usize>,
    /// How many frames were open before it.
    frames: u64,
    /// How many bytes of it have come, without those of the objects inside it.
    bytes: u64,
}

/// What is known of a stream up to an item.
#[derive(Drop)]
pub struct Sizes {
    alloc: Global,
    classes: Vec<Class>,
    /// The handles of descriptors, each with the index of its class.
    handles: Vec<(u32, usize)>,
    open: Vec<Open>,
    /// The name that comes after the tag of a descriptor, as far as it has come.
    name: Vec<u8>,
    is_name: bool,
}

impl Sizes {
    /// Of a stream of which nothing has come.
    pub fn new(alloc: Global) -> Sizes {
        Sizes {
            alloc,
            classes: Vec::new(alloc),
            handles: Vec::new(alloc),
            open: Vec::new(alloc),
            name: Vec::new(alloc),
            is_name: false,
        }
    }

    /// The classes, in the order in which they came.
    pub fn classes(&self) -> &[Class] {
        &self.classes
    }

    /// An item comes: so many frames are open before it, and this is the next handle that will be assigned.
    pub fn begin(&mut self, item: Item<'_>, frames: u64, handle: u32) -> Result<(), AllocError> {
        match item {
            Item::Tag(TC_OBJECT) => self.open.push(Open {
                class: None,
                frames,
                bytes: 0,
            })?,
            Item::Tag(TC_CLASSDESC) => {
                self.name.clear();
                self.is_name = true;
            }
            Item::Tag(TC_PROXYCLASSDESC) => {
                self.name.clear();
                self.name.extend_from_slice(b"(proxy)")?;
                self.describe(handle)?;
            }
            Item::Tag(TC_RESET) => self.handles.clear(),
            Item::TextPart(part) if self.is_name => self.name.extend_from_slice(part)?,
            Item::Suid(_) => {
                self.is_name = false;
                self.describe(handle)?;
            }
            Item::Handle(number) => {
                if let Some(class) = self.class_of(number.wrapping_sub(BASE_WIRE_HANDLE)) {
                    self.set_class(class);
                }
            }
            _ => {}
        }
        Ok(())
    }

    /// An item of so many bytes has come, which are the innermost object's, and so many frames are open after it. Where that
    /// are no more than before an object whose class is known, the object has ended.
    pub fn end(&mut self, bytes: u64, frames: u64) {
        if let Some(open) = self.open.last_mut() {
            open.bytes = open.bytes.saturating_add(bytes);
        }
        for _ in 0..self.open.len() {
            let Some(open) = self.open.last() else {
                return;
            };
            let open = *open;
            let Some(class) = open.class else {
                return;
            };
            if frames > open.frames {
                return;
            }
            let _ = self.open.pop();
            self.count(class, open.bytes);
        }
    }

    /// The descriptor with this handle has this name.
    fn describe(&mut self, handle: u32) -> Result<(), AllocError> {
        let class = match self.index_of_name() {
            Some(class) => class,
            None => self.add_class()?,
        };
        self.handles.push((handle, class))?;
        self.set_class(class);
        Ok(())
    }

    /// The index of the class of this name, if it has come before.
    fn index_of_name(&self) -> Option<usize> {
        for (index, class) in self.classes.iter().enumerate() {
            if class.name == self.name {
                return Some(index);
            }
        }
        None
    }

    /// Adds a class of this name, and returns its index.
    fn add_class(&mut self) -> Result<usize, AllocError> {
        let index = self.classes.len();
        self.classes.push(Class {
            name: self.name.to_vec(self.alloc)?,
            objects: 0,
            bytes: 0,
        })?;
        Ok(index)
    }

    /// The index of the class whose descriptor has this handle.
    fn class_of(&self, handle: u32) -> Option<usize> {
        for (number, class) in self.handles.iter().rev() {
            if *number == handle {
                return Some(*class);
            }
        }
        None
    }

    /// The class of the innermost object is this one, if it was not known.
    fn set_class(&mut self, class: usize) {
        if let Some(open) = self.open.last_mut() {
            if open.class.is_none() {
                open.class = Some(class);
            }
        }
    }

    /// One object more of this class, with so many bytes.
    fn count(&mut self, class: usize, bytes: u64) {
        if let Some(class) = self.classes.get_mut(class) {
            class.objects = class.objects.saturating_add(1);
            class.bytes = class.bytes.saturating_add(bytes);
        }
    }
}
