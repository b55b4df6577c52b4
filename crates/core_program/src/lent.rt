//! The calls that lend a program's parts.
ghost use Rattle.std.specs.Prelude.{◌≡◌, map};
ghost use Rattle.core_program.specs.Views.{program_of, core_class_of, field_of, method_of};

use crate::program::{CoreClass, CoreField, CoreMethod, CoreProgram};

impl CoreProgram {
    /// The classes, by their ids.
    pub fn classes(&self) -> &[CoreClass]
        ensures { map (core_class_of self.now) result.now ≡ (program_of self.now).classes }
    {
        self.classes.as_slice()
    }

    /// The fields of all classes, by their ids.
    pub fn fields(&self) -> &[CoreField]
        ensures { map field_of result.now ≡ (program_of self.now).fields }
    {
        self.fields.as_slice()
    }

    /// The methods of all classes, by their ids.
    pub fn methods(&self) -> &[CoreMethod]
        ensures { map method_of result.now ≡ (program_of self.now).methods }
    {
        self.methods.as_slice()
    }
}
