//! The class table of a program, and what is looked up in it.
ghost use Rattle.std.specs.Prelude.{◌≡◌, true, false, [], ◌∷◌, map, Some, None, codes};
ghost use Rattle.core_program.specs.declared.types.CoreType.TheVariants as T;
ghost use Rattle.syntax.specs.declared.tree.TypeName.TheVariants as Y;
ghost use Rattle.classes.specs.Table.{type_of, table_of, class_number, above_in_table, class_and_ancestors, is_of_kind, own_field, field_number, own_method, method_number, method_title, slot_title};
ghost use Rattle.front_examples.specs.Written.{class_type_name};
ghost use Rattle.front_examples.specs.Shop.{shop_table};

/// Classes, fields and methods are numbered in source order over the whole program.
pub fn what_a_table_has()
    ensures names { shop_table.names ≡ codes "Item" ∷ codes "Rare" ∷ codes "Main" ∷ codes "Job" ∷ [] }
    ensures classes { shop_table.classes ≡
        record { above = None; runnable = false; first_field = 0; field_names = codes "price" ∷ codes "left" ∷ []; first_method = 0; method_names = codes "take" ∷ codes "log" ∷ [] }
        ∷ record { above = Some 0; runnable = false; first_field = 2; field_names = codes "twin" ∷ codes "sold" ∷ []; first_method = 2; method_names = codes "take" ∷ [] }
        ∷ record { above = None; runnable = false; first_field = 4; field_names = []; first_method = 3; method_names = codes "main" ∷ [] }
        ∷ record { above = None; runnable = true; first_field = 4; field_names = []; first_method = 4; method_names = codes "run" ∷ [] } ∷ [] }
    ensures fields { shop_table.fields ≡
        record { class = 0; name = codes "price"; is_final = true; ty = T.Int }
        ∷ record { class = 0; name = codes "left"; is_final = false; ty = T.Int }
        ∷ record { class = 1; name = codes "twin"; is_final = true; ty = T.Class 0 }
        ∷ record { class = 1; name = codes "sold"; is_final = false; ty = T.Boolean } ∷ [] }
    ensures methods { shop_table.methods ≡
        record { class = 0; name = codes "take"; params = record { name = codes "n"; is_final = true; ty = T.Int } ∷ []; returns = Some T.Int }
        ∷ record { class = 0; name = codes "log"; params = []; returns = None }
        ∷ record { class = 1; name = codes "take"; params = record { name = codes "n"; is_final = true; ty = T.Int } ∷ []; returns = Some T.Int }
        ∷ record { class = 2; name = codes "main"; params = []; returns = None }
        ∷ record { class = 3; name = codes "run"; params = []; returns = None } ∷ [] }
    ensures types { map (type_of shop_table.names) (Y.Int ∷ Y.Boolean ∷ class_type_name (codes "Main") 0 ∷ class_type_name (codes "X") 0 ∷ []) ≡ T.Int ∷ T.Boolean ∷ T.Class 2 ∷ T.Class 0 ∷ [] }
    ensures empty { (table_of []).names ≡ [] }
{}

/// A class is of its own kind and of those above it; a field or method is the class's own, or else the nearest ancestor's.
pub fn what_a_table_tells()
    ensures classes { map (class_number shop_table) (codes "Rare" ∷ codes "X" ∷ []) ≡ Some 1 ∷ None ∷ [] }
    ensures above { map (above_in_table shop_table) (0 ∷ 1 ∷ 9 ∷ []) ≡ None ∷ Some 0 ∷ None ∷ [] }
    ensures lines { map (class_and_ancestors shop_table) (0 ∷ 1 ∷ []) ≡ (0 ∷ []) ∷ (1 ∷ 0 ∷ []) ∷ [] }
    ensures kinds { is_of_kind shop_table 1 1 ∷ is_of_kind shop_table 1 0 ∷ is_of_kind shop_table 0 1 ∷ is_of_kind shop_table 2 0 ∷ [] ≡ true ∷ true ∷ false ∷ false ∷ [] }
    ensures own_fields { map (own_field shop_table (codes "sold")) (1 ∷ 0 ∷ 9 ∷ []) ≡ Some 3 ∷ None ∷ None ∷ [] }
    ensures fields { map (field_number shop_table 1) (codes "sold" ∷ codes "left" ∷ codes "x" ∷ []) ≡ Some 3 ∷ Some 1 ∷ None ∷ [] }
    ensures fields_above { map (field_number shop_table 0) (codes "sold" ∷ codes "left" ∷ []) ≡ None ∷ Some 1 ∷ [] }
    ensures own_methods { map (own_method shop_table (codes "log")) (0 ∷ 1 ∷ 9 ∷ []) ≡ Some 1 ∷ None ∷ None ∷ [] }
    ensures methods { map (method_number shop_table 1) (codes "take" ∷ codes "log" ∷ codes "main" ∷ []) ≡ Some 2 ∷ Some 1 ∷ None ∷ [] }
    ensures methods_above { method_number shop_table 0 (codes "take") ≡ Some 0 }
    ensures titles { map (method_title shop_table) (1 ∷ 2 ∷ 9 ∷ []) ≡ Some (codes "Item", codes "log") ∷ Some (codes "Rare", codes "take") ∷ None ∷ [] }
    ensures slots { map (slot_title shop_table 2) (0 ∷ 1 ∷ 2 ∷ []) ≡ Some (codes "this") ∷ Some (codes "n") ∷ None ∷ [] }
    ensures no_slots { slot_title shop_table 9 0 ≡ None }
{}
