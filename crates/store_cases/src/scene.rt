//! A memory, a world and events, and what is seen of them.

use byte_store::{Base, Event, Events, Pointer, Store, Value, World};
use ps_base::{Items, Op};
use std::alloc::{AllocError, Global};

/// The one event before a command.
pub const BEFORE: Event = Event::Output(33);

/// What commands are performed in.
#[derive(Drop)]
pub struct Scene {
    pub store: Store<Value>,
    pub world: World,
    pub events: Events,
}

/// A place of a block: the byte there, and the cell.
pub type Look = (Result<i64, Op>, Result<Value, Op>);

impl Scene {
    /// A scene without a block, in a world of six grants.
    pub fn new(alloc: Global) -> Result<Scene, AllocError> {
        let grants = Items::from_slice(alloc, &[true; 6])?;
        Ok(Scene {
            store: Store::new(alloc),
            world: World::new(Items::new(alloc), grants),
            events: Items::new(alloc),
        })
    }

    // Adds what is seen of a block.
    fn add_looks(&self, base: Base, looks: &mut Vec<Look>) -> Result<(), AllocError> {
        for offset in 0..13 {
            let p = Pointer::At(base, offset);
            looks.push((self.store.load(p), self.store.get(p, 0)))?;
        }
        Ok(())
    }

    /// What is seen of the world, and of the first thirteen places of the first eight blocks of each kind.
    pub fn seen(&self, alloc: Global) -> Result<Vec<Look>, AllocError> {
        let mut looks = Vec::new(alloc);
        let granted = Value::Boolean(self.world.granted());
        looks.push((Ok(self.world.peek()), Ok(granted)))?;
        looks.push((Ok(i64::from(self.store.next_fixed())), Ok(Value::Unit)))?;
        for number in 0..8 {
            self.add_looks(Base::Fixed(number), &mut looks)?;
            self.add_looks(Base::Made(number), &mut looks)?;
        }
        Ok(looks)
    }
}
