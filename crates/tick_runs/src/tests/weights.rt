//! The weights of a beat against an independent computation in exact fractions.

use series_weights::Weights;

#[test]
fn weights_of_each_order(rt: HostRuntime) {
    for order in 16..=40u8 {
        let weights = Weights::new(order);
        assert_eq!(rt; weights.order(), order);
        assert_eq!(rt; weights.terms(), 17);
        let mut sum = weights.missing();
        for k in 0..order {
            sum = sum.wrapping_add(weights.w(k));
        }
        assert_eq!(rt; sum, 1 << 48, "order {order}");
        assert_eq!(rt;
            weights.missing(),
            if order == 16 { 13 } else { 9 },
            "order {order}"
        );
        assert_eq!(rt; weights.w(0), 103_548_857_136_060);
        assert_eq!(rt; weights.w(16), 4);
        assert_eq!(rt; weights.y(15), 4);
        assert_eq!(rt; weights.y(0), 177_926_119_574_587, "order {order}");
    }
}
