ghost use Rattle.std.specs.Prelude.{◌≡◌, ◌∷◌, [], ◌↔◌, IsSome, IfSome, IfNone, length};

/// Takes the element of a list that has just one. O(1). Most lists of messages are such, and a drain of them costs more
/// than the move of their element.
pub fn take_only<T>(list: &mut Vec<T>) -> Option<T>
    ensures variant { IsSome result ↔ (length list.old.items ≡ 1) }
    ensures some { IfSome result (λ only. (list.old.items ≡ only ∷ []) × (list.new.items ≡ [])) }
    ensures none { IfNone result (list.new.items ≡ list.old.items) }
{
    if list.len() != 1 {
        return None;
    }
    list.pop()
}

/// Empties a list, and keeps its room. Where it is empty, as most lists of changes are, that costs a look at its length.
pub fn empty<T: Drop>(list: &mut Vec<T>)
    ensures { list.new.items ≡ [] }
{
    if !list.is_empty() {
        list.clear();
    }
}
