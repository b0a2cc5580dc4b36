ghost use Rattle.base_use_order.specs.Uses.{HasAll, NoneUsesItself};

/// That where there is an order no definition uses itself, and that an order has all definitions.
pub fn order_laws()
    ensures none_uses_itself { NoneUsesItself }
    ensures has_all { HasAll }
{}
