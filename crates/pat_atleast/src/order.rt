ghost use Rattle.std.specs.Prelude.{◌≡◌, ◌≤◌, ◌<◌, ◌+◌, ◌++◌, ◌∷◌, [], OnOk, IfOk, take, drop, length};
ghost use Rattle.std.specs.List.{flat_map};
ghost use Rattle.pat_atleast.specs.Arrangements.{placed, arranged, ports_from};
ghost use Rattle.pat_atleast.specs.Finding.{order_place};

use crate::append::append;
use cedr_base::OutOfMemory;
use std::alloc::Global;
use std::marker::Model;

/// Some ports in an order. Contracts see the list of their numbers.
pub(crate) struct Order {
    ports: Vec<usize>,
}

impl Drop for Order {
    fn drop(self) {
        let Order { ports: _ } = self;
    }
}

impl Model for Order {
    ghost use Rattle.std.specs.Prelude.{List, ℕ};

    ghost Value = { List ℕ };

    ghost view = { λ o. o.ports.items };
}

impl Order {
    /// The order of no port. It takes no memory.
    fn new(alloc: Global) -> Order
        ensures { result ≡ [] }
    {
        Order {
            ports: Vec::new(alloc),
        }
    }

    /// The numbers of the ports. It takes no memory. O(1).
    pub(crate) fn ports(&self) -> &[usize]
        ensures { result.now ≡ self.now }
    {
        self.ports.as_slice()
    }

    /// The order with one port more at a place.
    fn with(&self, alloc: Global, port: usize, place: usize) -> Result<Order, OutOfMemory>
        requires { place ≤ length self.now }
        ensures { IfOk result (λ o. o ≡ take place self.now ++ port ∷ drop place self.now) }
    {
        let mut ports = Vec::new(alloc);
        ports.extend_from_slice(&self.ports()[..place])?;
        ports.push(port)?;
        ports.extend_from_slice(&self.ports()[place..])?;
        Ok(Order { ports })
    }

    /// The place of a port, and the number of places where it isn't among them. It takes no memory.
    pub(crate) fn place_of(&self, port: usize) -> usize
        ensures { result ≡ order_place port self.now }
    {
        let ports = self.ports();
        for place in 0..ports.len() {
            if ports[place] == port {
                return place;
            }
        }
        ports.len()
    }
}

/// Appends an order with one port more at each of its places.
fn push_placed(
    alloc: Global,
    port: usize,
    order: &Order,
    orders: &mut Vec<Order>,
) -> Result<(), OutOfMemory>
    ensures { OnOk result (orders.new.items ≡ orders.old.items ++ placed port order.now) }
{
    let last = order.ports().len();
    for place in 0..last {
        let longer = order.with(alloc, port, place)?;
        orders.push(longer)?;
    }
    let longest = order.with(alloc, port, last)?;
    orders.push(longest)?;
    Ok(())
}

/// Each order with one port more at each of its places.
fn all_placed(alloc: Global, port: usize, fewer: &[Order]) -> Result<Vec<Order>, OutOfMemory>
    ensures { IfOk result (λ orders. orders.items ≡ flat_map (placed port) fewer.now) }
{
    let mut orders = Vec::new(alloc);
    for order in fewer {
        push_placed(alloc, port, order, &mut orders)?;
    }
    Ok(orders)
}

/// Each order of so many of some ports: these are so many from a first one on.
pub(crate) fn arrange(
    alloc: Global,
    number: usize,
    first: usize,
    count: usize,
) -> Result<Vec<Order>, OutOfMemory>
    requires { first + count ≤ 4 }
    ensures { IfOk result (λ orders. orders.items ≡ arranged number (ports_from first count)) }
{
    if number == 0 {
        let mut orders = Vec::new(alloc);
        orders.push(Order::new(alloc))?;
        return Ok(orders);
    }
    if count == 0 {
        return Ok(Vec::new(alloc));
    }
    let fewer = arrange(alloc, number - 1, first + 1, count - 1)?;
    let mut orders = all_placed(alloc, first, fewer.as_slice())?;
    let others = arrange(alloc, number, first + 1, count - 1)?;
    append(others, &mut orders)?;
    Ok(orders)
}
