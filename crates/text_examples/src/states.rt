//! The text of a state.
ghost use Rattle.std.specs.Prelude.{◌≡◌, pos, negsuc, true, false, [], ◌∷◌, map, Some, None, codes};
ghost use Rattle.state.specs.declared.value.Value.TheVariants.{Int, Truth, Null, Ref};
ghost use Rattle.state.specs.declared.value.Fault.TheVariants as fault;
ghost use Rattle.state.specs.declared.value.ThreadState.TheVariants as status;
ghost use Rattle.report.specs.States.{address_text, value_text, fault_text, class_text, print_line, field_values_text, object_line, lock_line, status_text, thread_line, threads_text};
ghost use Rattle.text_examples.specs.Names.{names, program, third};

/// Addresses, values, and why a thread faulted.
pub fn how_values_are_written()
    ensures address { address_text third ≡ codes "1:2" }
    ensures values { map value_text (Int (pos 12) ∷ Int (negsuc 6) ∷ Truth true ∷ Truth false ∷ Null ∷ Ref third ∷ [])
        ≡ codes "12" ∷ codes "-7" ∷ codes "true" ∷ codes "false" ∷ codes "null" ∷ codes "1:2" ∷ [] }
    ensures faults { map fault_text (fault.Null ∷ fault.Zero ∷ fault.Depth ∷ []) ≡ codes "null" ∷ codes "zero" ∷ codes "depth" ∷ [] }
    ensures classes { map (class_text names) (0 ∷ 1 ∷ 2 ∷ []) ≡ codes "Cell" ∷ codes "Main" ∷ [] ∷ [] }
{}

/// A line for each printed number, each object, each held lock and each thread; the fields of an object with their values.
pub fn how_lines_of_a_state_are_written()
    ensures print { map print_line (pos 3 ∷ negsuc 0 ∷ []) ≡ codes "print 3\n" ∷ codes "print -1\n" ∷ [] }
    ensures fields { field_values_text names (0 ∷ 1 ∷ []) (Int (pos 5) ∷ Null ∷ []) ≡ codes " v=5 c=null" }
    ensures values_without_fields { field_values_text names [] (Null ∷ []) ≡ [] }
    ensures fields_without_values { field_values_text names (0 ∷ []) [] ≡ [] }
    ensures object { object_line program names (third, record { class = 1; values = Ref third ∷ [] }) ≡ codes "object 1:2 Main c=1:2\n" }
    ensures object_of_no_class { object_line program names (third, record { class = 2; values = Null ∷ [] }) ≡ codes "object 1:2 \n" }
    ensures lock { lock_line (third, record { holder = 4; count = 5 }) ≡ codes "lock 1:2 thread 4 count 5\n" }
    ensures statuses { map (status_text names (Some 0) 3) (status.Ready ∷ status.Running ∷ status.Done ∷ status.Faulted fault.Depth ∷ [])
        ≡ codes "ready" ∷ codes "running Main.put 3" ∷ codes "done" ∷ codes "faulted depth" ∷ [] }
    ensures no_frame { status_text names None 0 status.Running ≡ codes "running  0" }
    ensures thread { thread_line names 7 (record { status = status.Done; method = None; frames = 0 }) ≡ codes "thread 7 done\n" }
    ensures threads { threads_text names 0 (record { status = status.Ready; method = None; frames = 0 } ∷ record { status = status.Running; method = Some 1; frames = 2 } ∷ [])
        ≡ codes "thread 0 ready\nthread 1 running Main.main 2\n" }
{}
