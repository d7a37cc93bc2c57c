// The items of a run, whose texts are written as they come.
ghost use Rattle.std.specs.Prelude.{◌≡◌, ◌≤◌, ◌<◌, ◌^◌, [], ◌∷◌, ◌++◌, length, OnOk, IfErr, IsErrOf};
ghost use Rattle.std.specs.Io.KnownBytes.{Appends};
ghost use Rattle.sp_io.specs.Faults.{Rose};
ghost use Rattle.sp_text.specs.Texts.{item_text};
ghost use Rattle.sp_lines.specs.Keeping.{KeptAt};

use crate::Fault;
use sp_io::{Sink, put_all};
use sp_rect::Text;
use sp_text::{Form, Item, Items, push_item};
use std::alloc::Global;
use std::marker::Model;

/// Keeps items, and writes the text of each in one form. It has room for one text, which it takes anew for
/// each. The sink may hold the texts back.
#[derive(Drop)]
pub struct Scribe {
    form: Form,
    items: Items,
    text: Text,
}

impl Model for Scribe {
    ghost use Rattle.sp_lines.specs.Keeping.{Notes};

    ghost Value = { Notes };

    ghost view = { λ s. record { form = s.form; items = s.items } };
}

impl Scribe {
    /// Without items. Takes no memory.
    pub fn new(alloc: Global, form: Form) -> Scribe
        ensures form { result.form ≡ form }
        ensures items { result.items ≡ [] }
    {
        Scribe {
            form,
            items: Items::new(alloc),
            text: Text::new(alloc),
        }
    }

    /// The form of the texts.
    pub fn form(&self) -> Form
        ensures { result ≡ self.now.form }
    {
        self.form
    }

    /// How many items were kept.
    pub fn len(&self) -> usize
        ensures len { result ≡ length self.now.items }
        ensures small { result < 2 ^ 63 }
    {
        self.items.len()
    }

    /// The items that were kept, in order.
    pub fn into_items(self) -> Items
        ensures { result ≡ self.items }
    {
        self.items
    }

    /// Keeps an item, and then writes its text. At `Write` the item is kept and the sink has taken a front
    /// of its text; at `Memory` nothing has changed. No other fault comes. Costs the item's text.
    pub fn keep<K: Sink>(&mut self, sink: &mut K, item: Item) -> Result<(), Fault>
        ensures items { OnOk result (self.new.items ≡ self.old.items ++ item ∷ []) }
        ensures written { OnOk result (Appends (K.taken sink.old) (K.taken sink.new) (item_text self.old.form item)) }
        ensures form { self.new.form ≡ self.old.form }
        ensures stops { IfErr result (λ fault. KeptAt fault self.old.form self.old.items self.new.items item (K.taken sink.old) (K.taken sink.new)) }
        ensures later { K.write_faults sink.old ≤ K.write_faults sink.new }
        ensures failed { IsErrOf result Fault.Write → Rose (K.write_faults sink.old) (K.write_faults sink.new) }
    {
        self.text.clear();
        if push_item(&mut self.text, &item, self.form).is_err() {
            return Err(Fault::Memory);
        }
        if self.items.push(item).is_err() {
            return Err(Fault::Memory);
        }
        match put_all(sink, self.text.bytes()) {
            Ok(()) => Ok(()),
            Err(_) => Err(Fault::Write),
        }
    }
}
