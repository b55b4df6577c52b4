//! What a class table tells.

ghost use Rattle.std.specs.Prelude.{◌≡◌, ◌<◌, ℕ, Option, length, map, slice_get, option_map, is_some, nat_lt};
ghost use Rattle.classes.specs.Table.{class_number, above_in_table, is_of_kind, own_field, field_number, own_method, method_number, method_title, slot_title, class_and_ancestors, first_found, field_in, number_of_own_method, slot_of};
ghost use Rattle.classes.specs.Jumps.{AreJumps, AreOfBucket, jump_at};
ghost use Rattle.classes.specs.Views.{class_data, method_data, table_data};

use crate::entries::{ClassEntry, ClassTable, FieldEntry, MethodEntry};
use crate::jumps::{Jump, bucket, has_bucket, jump_at};
use paths::{ClassId, FieldId, MethodId};

impl<'a> ClassEntry<'a> {
    /// The number of the class's own field with this name.
    pub fn field_named(&self, name: &str) -> Option<FieldId>
        ensures { result ≡ field_in name.now (class_data self.now) }
    {
        let index = self.field_names.number_of(name)?;
        Some(FieldId(self.first_field + index as u32))
    }

    /// The number of the class's first own field; its others follow in order.
    pub fn first_field(&self) -> FieldId
        ensures { result ≡ (class_data self.now).first_field }
    {
        FieldId(self.first_field)
    }

    /// How many fields the class has itself.
    pub fn field_count(&self) -> usize
        ensures { result ≡ length (class_data self.now).field_names }
    {
        self.field_names.len()
    }

    /// The number of the class's first own method; its others follow in order.
    pub fn first_method(&self) -> MethodId
        ensures { result ≡ (class_data self.now).first_method }
    {
        MethodId(self.first_method)
    }

    /// How many methods the class has itself.
    pub fn method_count(&self) -> usize
        ensures { result ≡ length (class_data self.now).method_names }
    {
        self.method_names.len()
    }

    /// The number of the class's own method with this name.
    pub fn method_named(&self, name: &str) -> Option<MethodId>
        ensures { result ≡ number_of_own_method name.now (class_data self.now) }
    {
        let index = self.method_names.number_of(name)?;
        Some(MethodId(self.first_method + index as u32))
    }
}

impl<'a> MethodEntry<'a> {
    /// The name of a slot: `this`, then the parameters.
    pub(crate) fn slot_name(&self, slot: u16) -> Option<&'a str>
        ensures { option_map (λ n. n.now) result ≡ slot_of slot (method_data self.now) }
    {
        if slot == 0 {
            return Some("this");
        }
        let param = self.params.get(slot as usize - 1)?;
        Some(param.name)
    }
}

impl<'a> ClassTable<'a> {
    /// The class with this name.
    pub fn class_named(&self, name: &str) -> Option<ClassId>
        ensures { result ≡ class_number (table_data self.now) name.now }
    {
        let index = self.names.number_of(name)?;
        Some(ClassId(index as u32))
    }

    /// The class that a class extends.
    pub fn above(&self, class: ClassId) -> Option<ClassId>
        ensures { result ≡ above_in_table (table_data self.now) class }
    {
        self.classes.get(class.0 as usize)?.above
    }

    /// Whether the second class is the first or an ancestor of it. It looks at no class above the second.
    pub fn is_kind_of(&self, class: ClassId, other: ClassId) -> bool
        ensures { result ≡ is_of_kind (table_data self.now) class other }
    {
        match &self.jumps {
            Some(jumps) => self.is_kind_by_jumps(jumps.as_slice(), class, other),
            None => self.is_kind_by_steps(class, other),
        }
    }

    /// The class to which as many jumps lead as lead to none with fewer classes above than this.
    fn risen(&self, jumps: &[Jump], class: ClassId, depth: usize) -> ClassId
        requires { AreJumps (table_data self.now).classes jumps.now }
        ensures { (other : ℕ) → depth ≡ (jump_at jumps.now other).depth → is_of_kind (table_data self.now) result other ≡ is_of_kind (table_data self.now) class other }
    {
        let mut at = class;
        for _ in 0..self.classes.len() {
            let to = jump_at(jumps, at).to;
            if to == at {
                return at;
            }
            if jump_at(jumps, to).depth < depth {
                return at;
            }
            at = to;
        }
        at
    }

    fn is_kind_by_jumps(&self, jumps: &[Jump], class: ClassId, other: ClassId) -> bool
        requires { AreJumps (table_data self.now).classes jumps.now }
        ensures { result ≡ is_of_kind (table_data self.now) class other }
    {
        let depth = jump_at(jumps, other).depth;
        let mut at = class;
        for _ in 0..self.classes.len() {
            let from = self.risen(jumps, at, depth);
            if jump_at(jumps, from).depth <= depth {
                return from == other;
            }
            let Some(above) = self.above(from) else {
                return false;
            };
            at = above;
        }
        self.is_kind_by_steps(at, other)
    }

    fn is_kind_by_steps(&self, class: ClassId, other: ClassId) -> bool
        ensures { result ≡ is_of_kind (table_data self.now) class other }
    {
        let mut at = class;
        for _ in 0..self.classes.len() {
            if at == other {
                return true;
            }
            let Some(above) = self.above(at) else {
                return false;
            };
            at = above;
        }
        at == other
    }

    /// The class to which as many jumps lead as pass none that declares a name of this bucket.
    fn passed(&self, jumps: &[Jump], class: ClassId, bucket: u32) -> ClassId
        requires jumps { AreJumps (table_data self.now).classes jumps.now }
        requires low { bucket < 64 }
        ensures { (own : ℕ → Option ℕ) → AreOfBucket jumps.now own bucket → first_found own (class_and_ancestors (table_data self.now) result) ≡ first_found own (class_and_ancestors (table_data self.now) class) }
    {
        let mut at = class;
        for _ in 0..self.classes.len() {
            let jump = jump_at(jumps, at);
            if jump.to == at {
                return at;
            }
            if has_bucket(jump.names, bucket) {
                return at;
            }
            at = jump.to;
        }
        at
    }

    fn own_field(&self, class: ClassId, name: &str) -> Option<FieldId>
        ensures { result ≡ own_field (table_data self.now) name.now class }
    {
        self.classes.get(class.0 as usize)?.field_named(name)
    }

    /// The field with this name in a class: its own, else that of its nearest ancestor that has one.
    pub fn field_named(&self, class: ClassId, name: &str) -> Option<FieldId>
        ensures { result ≡ field_number (table_data self.now) class name.now }
    {
        match &self.jumps {
            Some(jumps) => self.field_by_jumps(jumps.as_slice(), class, name),
            None => self.field_by_steps(class, name),
        }
    }

    fn field_by_jumps(&self, jumps: &[Jump], class: ClassId, name: &str) -> Option<FieldId>
        requires { AreJumps (table_data self.now).classes jumps.now }
        ensures { result ≡ field_number (table_data self.now) class name.now }
    {
        let bucket = bucket(name);
        let mut at = class;
        for _ in 0..self.classes.len() {
            let from = self.passed(jumps, at, bucket);
            let found = self.own_field(from, name);
            if found.is_some() {
                return found;
            }
            at = self.above(from)?;
        }
        self.field_by_steps(at, name)
    }

    fn field_by_steps(&self, class: ClassId, name: &str) -> Option<FieldId>
        ensures { result ≡ field_number (table_data self.now) class name.now }
    {
        let mut at = class;
        for _ in 0..self.classes.len() + 1 {
            let found = self.own_field(at, name);
            if found.is_some() {
                return found;
            }
            at = self.above(at)?;
        }
        None
    }

    fn own_method(&self, class: ClassId, name: &str) -> Option<MethodId>
        ensures { result ≡ own_method (table_data self.now) name.now class }
    {
        self.classes.get(class.0 as usize)?.method_named(name)
    }

    /// The method with this name in a class: its own, else that of its nearest ancestor that has one.
    pub fn method_named(&self, class: ClassId, name: &str) -> Option<MethodId>
        ensures { result ≡ method_number (table_data self.now) class name.now }
    {
        match &self.jumps {
            Some(jumps) => self.method_by_jumps(jumps.as_slice(), class, name),
            None => self.method_by_steps(class, name),
        }
    }

    fn method_by_jumps(&self, jumps: &[Jump], class: ClassId, name: &str) -> Option<MethodId>
        requires { AreJumps (table_data self.now).classes jumps.now }
        ensures { result ≡ method_number (table_data self.now) class name.now }
    {
        let bucket = bucket(name);
        let mut at = class;
        for _ in 0..self.classes.len() {
            let from = self.passed(jumps, at, bucket);
            let found = self.own_method(from, name);
            if found.is_some() {
                return found;
            }
            at = self.above(from)?;
        }
        self.method_by_steps(at, name)
    }

    fn method_by_steps(&self, class: ClassId, name: &str) -> Option<MethodId>
        ensures { result ≡ method_number (table_data self.now) class name.now }
    {
        let mut at = class;
        for _ in 0..self.classes.len() + 1 {
            let found = self.own_method(at, name);
            if found.is_some() {
                return found;
            }
            at = self.above(at)?;
        }
        None
    }

    /// The classes, by their numbers.
    pub fn classes(&self) -> &[ClassEntry<'a>]
        ensures { map class_data result.now ≡ (table_data self.now).classes }
    {
        self.classes.as_slice()
    }

    /// The fields of all classes, by their numbers.
    pub fn fields(&self) -> &[FieldEntry<'a>]
        ensures { result.now ≡ (table_data self.now).fields }
    {
        self.fields.as_slice()
    }

    /// The methods of all classes, by their numbers.
    pub fn methods(&self) -> &[MethodEntry<'a>]
        ensures { map method_data result.now ≡ (table_data self.now).methods }
    {
        self.methods.as_slice()
    }

    /// The name of a class.
    pub fn class_name(&self, id: ClassId) -> Option<&'a str>
        ensures { option_map (λ n. n.now) result ≡ slice_get (table_data self.now).names id }
    {
        self.names.name_at(id.0 as usize)
    }

    /// The name of a field.
    pub fn field_name(&self, id: FieldId) -> Option<&'a str>
        ensures { option_map (λ n. n.now) result ≡ option_map (λ f. f.name) (slice_get (table_data self.now).fields id) }
    {
        let field = self.fields.get(id.0 as usize)?;
        Some(field.name)
    }

    /// The names of a method's class and of the method.
    pub fn method_name(&self, id: MethodId) -> Option<(&'a str, &'a str)>
        ensures names { option_map (λ n. (n.0.now, n.1.now)) result ≡ method_title (table_data self.now) id }
        ensures found { is_some result ≡ nat_lt id (length (table_data self.now).methods) }
    {
        self.title(id)
    }

    fn title(&self, id: MethodId) -> Option<(&'a str, &'a str)>
        ensures { option_map (λ n. (n.0.now, n.1.now)) result ≡ method_title (table_data self.now) id }
    {
        let method = self.methods.get(id.0 as usize)?;
        let class = self.class_name(method.class)?;
        Some((class, method.name))
    }

    /// The name of a slot of a method: `this` for slot 0, then the parameters.
    pub fn slot_name(&self, method: MethodId, slot: u16) -> Option<&'a str>
        ensures { option_map (λ n. n.now) result ≡ slot_title (table_data self.now) method slot }
    {
        let method = self.methods.get(method.0 as usize)?;
        method.slot_name(slot)
    }
}
